// Document 01's frame stage: from a frame's spectra to its finished frame, in buffers that the caller lends.
#![tactic(auto)]

// The run behind the gate, on buffers of the stated lengths.
pub mod run;
// The parts of longer buffers that the run is lent.
pub mod parts;

ghost use Rattle.std.specs.Prelude.{◌≡◌};
ghost use Rattle.rules.specs.Stage.{stage_lent, stage_left, encode_frame};

use crate::parts::encode_parts;
use rules::{Delivery, Layout, Room, StageRefusal, StageRoom};
use stage_gate::first_refusal;

// The frame stage. It takes any arguments: what cannot be done is refused, and the answer says why.
pub fn encode_frame(
    layout: Layout,
    spectra: &[f32],
    intensities: &[u8],
    scaled: &mut [f32],
    codes: &mut [i32],
    factors: &mut [u8],
    side: &mut [u8],
    frame: &mut [u8],
) -> Result<Delivery, StageRefusal>
    ensures { stage_left result scaled.new codes.new factors.new side.new frame.new
        ≡ encode_frame layout (stage_lent spectra.now intensities.now scaled.old codes.old factors.old
        side.old frame.old) }
{
    let stored = Room {
        factors: factors.len(),
        side: side.len(),
        codes: codes.len(),
        frame: frame.len(),
    };
    let room = StageRoom {
        spectra: spectra.len(),
        intensities: intensities.len(),
        scaled: scaled.len(),
        stored,
    };
    first_refusal(layout, room, spectra, intensities)?;
    encode_parts(
        layout,
        spectra,
        intensities,
        scaled,
        codes,
        factors,
        side,
        frame,
    )
}
