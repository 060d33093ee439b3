// The WAV reader by numbers and slices only, no `requires`.
ghost use Rattle.std.specs.Prelude.{◌≡◌, [], ◌∷◌, ◌≤◌, ◌<◌, length};
ghost use Rattle.rules.specs.Lent.{overwrite};
ghost use Rattle.rules.specs.Refusals.{delivered};
ghost use Rattle.rules_files.specs.Wav.{wav_outcome, wav_note};
ghost use Rattle.rules_files.specs.WavFits.{TakeFits};
ghost use Rattle.hca_answers.specs.Outcomes.{AnswerStored};
ghost use Rattle.hca_files.specs.ReadWav.{c_wav_left, c_read_wav};

use hca_answers::refuse;
use refusals::Refusal;
use rules_files::wav::{LevelNote, Take, WavRefusal};

// Peak and mean over the note's front.
fn store_note(level: LevelNote, note: &mut [f32])
    requires { 2 ≤ length note.old }
    ensures { note.new ≡ overwrite (level.peak ∷ level.mean ∷ []) note.old }
{
    note[0] = level.peak;
    note[1] = level.mean;
}

// A take's four numbers.
fn deliver_take(take: Take, answer: &mut [u32]) -> u32
    requires channels_bound { (take.channels < 4294967296) × (take.rate < 4294967296) × (take.depth < 4294967296) × (take.count < 4294967296) }
    requires in_bounds { 4 ≤ length answer.old }
    ensures { AnswerStored (delivered (take.channels ∷ take.rate ∷ take.depth ∷ take.count ∷ [])) result answer.old answer.new }
{
    answer[0] = take.channels as u32;
    answer[1] = take.rate as u32;
    answer[2] = take.depth as u32;
    answer[3] = take.count as u32;
    0
}

// An answer as numbers; the note stays at a refusal.
fn store_wav(a: Result<Take, WavRefusal>, note: &mut [f32], answer: &mut [u32]) -> u32
    requires take_fits { TakeFits a }
    requires in_bounds { (2 ≤ length note.old) × (4 ≤ length answer.old) }
    ensures { (note.new ≡ overwrite (wav_note a) note.old)
        × AnswerStored (wav_outcome a) result answer.old answer.new }
{
    match a {
        Ok(take) => {
            store_note(take.note, note);
            deliver_take(take, answer)
        }
        Err(e) => {
            let r = Refusal::from(e);
            refuse(r.number, r.beside, answer)
        }
    }
}

// The WAV reader. note: peak, mean; answer: channels, rate, depth, count.
pub fn read_wav(wav: &[u8], samples: &mut [f32], note: &mut [f32], answer: &mut [u32]) -> u32
    ensures { c_wav_left result samples.new note.new answer.new
        ≡ c_read_wav wav.now samples.old note.old answer.old }
{
    if note.len() < 2 {
        return refuse(2, 0, answer);
    }
    if answer.len() < 4 {
        return 2;
    }
    let a = wav::read_wav(wav, samples);
    store_wav(a, note, answer)
}
