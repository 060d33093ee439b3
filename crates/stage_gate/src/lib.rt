// Document 01, **Refusal numbers** 1 to 4: what is refused before anything is written.
#![tactic(auto)]

ghost use Rattle.std.specs.Prelude.{◌≡◌, ◌&&◌, ◌/◌, ◌≤◌, ◌<◌, ltb, length};
ghost use Rattle.buffers.specs.Walk.{first};
ghost use Rattle.rules.specs.Layout.{LegalLayout, secondary_at};
ghost use Rattle.rules.specs.Stage.{stage_has_room, bad_intensity, bad_spectrum, gate};
ghost use Rattle.stage_gate.specs.Gate.{BeforeSpectra, first_if_any, gate_outcome};

use floats::finite;
use layouts::{has_room, is_secondary, legal};
use rules::{Layout, StageRefusal, StageRoom};

// A longer buffer is fine.
fn enough(layout: Layout, room: StageRoom) -> bool
    requires { LegalLayout layout }
    ensures { result ≡ stage_has_room layout room }
{
    let n = layout.channels * 1024;
    let k = layout.channels * 8;
    n <= room.spectra && k <= room.intensities && n <= room.scaled && has_room(layout, room.stored)
}

// A secondary's above 15.
fn is_bad_intensity(layout: Layout, i: usize, intensity: u8) -> bool
    requires { i < 128 }
    ensures { result ≡ ltb 15 intensity && secondary_at layout (i / 8) }
{
    15 < intensity && is_secondary(layout, i / 8)
}

fn first_bad_intensity(layout: Layout, intensities: &[u8]) -> Option<usize>
    requires { length intensities.now ≤ 128 }
    ensures { result ≡ first_if_any (bad_intensity layout intensities.now) (length intensities.now) }
{
    intensities
        .iter()
        .enumerate()
        .position(|(i, &x)| is_bad_intensity(layout, i, x))
}

// It goes on behind the first, so that the values are compiled to run side by side.
fn has_bad_spectrum(spectra: &[f32]) -> bool
    ensures { result ≡ ltb (first (bad_spectrum spectra.now) (length spectra.now)) (length spectra.now) }
{
    spectra.iter().fold(false, |found, &x| found | !finite(x))
}

// Part by part, since that test goes on to the end: which is looked for from where the first part that has one begins.
pub fn first_bad_spectrum(spectra: &[f32]) -> Option<usize>
    ensures { result ≡ first_if_any (bad_spectrum spectra.now) (length spectra.now) }
{
    let part = spectra.chunks(1024).position(has_bad_spectrum)?;
    let at = part * 1024;
    let i = spectra[at..].iter().position(|&x| !finite(x))?;
    Some(at + i)
}

// 1 to 3, which look at no spectrum.
pub fn refusal_before_spectra(
    layout: Layout,
    room: StageRoom,
    intensities: &[u8],
) -> Result<(), StageRefusal>
    requires { room.intensities ≡ length intensities.now }
    ensures { BeforeSpectra layout room intensities.now (gate_outcome result) }
{
    if !legal(layout) {
        return Err(StageRefusal::BadLayout);
    }
    if !enough(layout, room) {
        return Err(StageRefusal::ShortBuffer);
    }
    match first_bad_intensity(layout, &intensities[..layout.channels * 8]) {
        Some(i) => Err(StageRefusal::BadIntensity(i)),
        None => Ok(()),
    }
}

// The first refusal in document 01's order. The lengths come by value, so that only two slices travel.
pub fn first_refusal(
    layout: Layout,
    room: StageRoom,
    spectra: &[f32],
    intensities: &[u8],
) -> Result<(), StageRefusal>
    requires { (room.spectra ≡ length spectra.now) × (room.intensities ≡ length intensities.now) }
    ensures { gate_outcome result ≡ gate layout room spectra.now intensities.now }
{
    refusal_before_spectra(layout, room, intensities)?;
    if let Some(i) = first_bad_spectrum(&spectra[..layout.channels * 1024]) {
        return Err(StageRefusal::BadSpectrum(i));
    }
    Ok(())
}
