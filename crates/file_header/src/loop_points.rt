// The loop's points as the fields of the file header's loop chunk.
ghost use Rattle.std.specs.Prelude.{◌≡◌};
ghost use Rattle.rules_files.specs.FileHeader.{loop_fields, PointFits};

use rules_files::header::{LoopFields, LoopPoints};

// The points moved by the delay. An end on a frame's edge belongs to the frame before.
pub fn loop_fields(points: LoopPoints) -> LoopFields
    requires { PointFits points }
    ensures { result ≡ loop_fields points.start points.end }
{
    let s = points.start + 128;
    let e = points.end + 128;
    if e % 1024 == 0 {
        return LoopFields {
            start_frame: s / 1024,
            end_frame: e / 1024 - 1,
            delay: s % 1024,
            padding: 0,
        };
    }
    LoopFields {
        start_frame: s / 1024,
        end_frame: e / 1024,
        delay: s % 1024,
        padding: 1024 - e % 1024,
    }
}
