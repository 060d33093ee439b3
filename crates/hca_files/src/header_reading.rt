// The header's reader by numbers and slices only, no `requires`.
ghost use Rattle.std.specs.Prelude.{◌≡◌, ◌≤◌, length};
ghost use Rattle.rules.specs.Lent.{overwrite};
ghost use Rattle.rules.specs.Refusals.{delivered};
ghost use Rattle.rules_files.specs.HeaderReading.{layout_numbers, stream_numbers, header_read_outcome, header_layout};
ghost use Rattle.rules_files.specs.HeaderReadFits.{LoopWords, LoopFits, FieldsFit, ReadFits};
ghost use Rattle.hca_answers.specs.Outcomes.{AnswerStored};
ghost use Rattle.hca_files.specs.ReadHeader.{c_header_read_left, c_read_header, loop_flag, loop_or};

use file_header::reading::read_file_header;
use hca_answers::refuse;
use refusals::Refusal;
use rules_files::header::{FileHeader, HeaderReadRefusal, LoopFields};

// 1 for a loop.
fn loop_flag(points: Option<LoopFields>) -> u32
    ensures { result ≡ loop_flag points }
{
    match points {
        None => 0,
        Some(_) => 1,
    }
}

// Its numbers, or zeros.
fn loop_or(points: Option<LoopFields>) -> LoopFields
    requires { LoopFits points }
    ensures { (result ≡ loop_or points) × LoopWords result }
{
    points.unwrap_or(LoopFields {
        start_frame: 0,
        end_frame: 0,
        delay: 0,
        padding: 0,
    })
}

// Seven numbers over the layout's front; the mode's place stays.
fn store_layout(fields: FileHeader, layout: &mut [u32])
    requires fields_fit { FieldsFit fields }
    requires in_bounds { 7 ≤ length layout.old }
    ensures { layout.new ≡ overwrite (layout_numbers fields) layout.old }
{
    layout[0] = fields.channels as u32;
    layout[1] = fields.base as u32;
    layout[2] = fields.stereo as u32;
    layout[3] = fields.total as u32;
    layout[4] = fields.frame_size as u32;
    layout[5] = fields.minimum as u32;
    layout[6] = fields.maximum as u32;
}

// Eight numbers over the answer's front.
fn deliver_header(fields: FileHeader, answer: &mut [u32]) -> u32
    requires fields_fit { FieldsFit fields }
    requires in_bounds { 8 ≤ length answer.old }
    ensures { AnswerStored (delivered (stream_numbers fields)) result answer.old answer.new }
{
    let numbers = loop_or(fields.points);
    answer[0] = fields.rate as u32;
    answer[1] = fields.frames as u32;
    answer[2] = fields.padding as u32;
    answer[3] = loop_flag(fields.points);
    answer[4] = numbers.start_frame as u32;
    answer[5] = numbers.delay as u32;
    answer[6] = numbers.end_frame as u32;
    answer[7] = numbers.padding as u32;
    0
}

// An answer as numbers; the layout stays at a refusal.
fn store_header(
    a: Result<FileHeader, HeaderReadRefusal>,
    layout: &mut [u32],
    answer: &mut [u32],
) -> u32
    requires read_fits { ReadFits a }
    requires in_bounds { (7 ≤ length layout.old) × (8 ≤ length answer.old) }
    ensures { (layout.new ≡ overwrite (header_layout a) layout.old)
        × AnswerStored (header_read_outcome a) result answer.old answer.new }
{
    match a {
        Ok(fields) => {
            store_layout(fields, layout);
            deliver_header(fields, answer)
        }
        Err(e) => {
            let r = Refusal::from(e);
            refuse(r.number, r.beside, answer)
        }
    }
}

// The header's reader. layout: seven numbers; answer: rate, count, padding, loop or none, frame, delay, end frame, padding of the loop.
pub fn read_header(header: &[u8], layout: &mut [u32], answer: &mut [u32]) -> u32
    ensures { c_header_read_left result layout.new answer.new
        ≡ c_read_header header.now layout.old answer.old }
{
    if answer.len() < 8 {
        return 2;
    }
    if layout.len() < 7 {
        return refuse(2, 0, answer);
    }
    let a = read_file_header(header);
    store_header(a, layout, answer)
}
