// The check of a frame, eight bytes at a time, from 8 x 256 numbers. It is the checksum that crc has byte by byte.
#![tactic(auto)]

ghost use Rattle.std.specs.Prelude.{◌≡◌, ◌∷◌, ◌<◌, ◌%◌, length, replicate};
ghost use Rattle.crc.specs.Check.{checksum};
ghost use Rattle.crc.specs.Table.{feed};

mod entries;

// The checksum of the byte n with k zero bytes behind it.
fn share(k: usize, n: u8) -> u16
    requires { k < 8 }
    ensures { result ≡ checksum (n ∷ replicate k 0) }
{
    entries::CRC16_SLICES[k][n as usize]
}

// The checksum with eight bytes more: a share for each, the last byte's first.
fn eight(sum: u16, b: &[u8; 8]) -> u16
    ensures { result ≡ feed sum b.now }
{
    let [high, low] = sum.to_be_bytes();
    share(0, b[7])
        ^ share(1, b[6])
        ^ share(2, b[5])
        ^ share(3, b[4])
        ^ share(4, b[3])
        ^ share(5, b[2])
        ^ share(6, low ^ b[1])
        ^ share(7, high ^ b[0])
}

// The checksum with these bytes more, as many as whole steps take.
pub fn crc16_eights(start: u16, bytes: &[u8]) -> u16
    requires { length bytes.now % 8 ≡ 0 }
    ensures { result ≡ feed start bytes.now }
{
    let (eights, _) = bytes.as_chunks::<8>();
    let mut sum = start;
    for b in eights {
        sum = eight(sum, b);
    }
    sum
}
