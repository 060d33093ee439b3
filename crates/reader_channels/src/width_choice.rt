// What the strict reader asks of a channel's width: before its factors are read, and of them.
ghost use Rattle.std.specs.Prelude.{◌≡◌, ◌&&◌, ◌||◌, ◌≤◌, leb, eqb, length, take};
ghost use Rattle.rules.specs.Width.{width};

// Width 7, and any width but 0 on a coded count of 0, is refused at once.
pub fn width_fits(width: u32, coded: usize) -> bool
    ensures { result ≡ (leb width 6 && (leb 1 coded || eqb width 0)) }
{
    width <= 6 && (1 <= coded || width == 0)
}

// Whether a width of so many bits is the chosen one for a channel's coded factors.
pub fn is_chosen(bits: u32, factors: &[u8], coded: usize) -> bool
    requires { (coded ≤ 128) × (length factors.now ≡ 128) }
    ensures { result ≡ eqb (width (take coded factors.now)) bits }
{
    widths::calculate_optimal_delta_length(factors, coded).bits == bits as usize
}
