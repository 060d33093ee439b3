// An answer as numbers: the one that is returned, and those that are stored. An answer under four places stays untouched.
#![tactic(auto)]

pub mod stereo;

ghost use Rattle.std.specs.Prelude.{◌≤◌, ◌<◌, length};
ghost use Rattle.rules.specs.Refusals.{delivered, refused, stage_outcome, writer_outcome, reader_outcome};
ghost use Rattle.hca_answers.specs.Outcomes.{Small, AnswerStored};

use refusals::Refusal;
use rules::{Delivery, ReadRefusal, RecordDelivery, StageRefusal, WriteRefusal};

pub fn refuse(number: usize, beside: usize, answer: &mut [u32]) -> u32
    requires { (number < 4294967296) × (beside < 4294967296) }
    ensures { AnswerStored (refused number beside) result answer.old answer.new }
{
    let result = number as u32;
    if answer.len() < 4 {
        return result;
    }
    answer[0] = beside as u32;
    result
}

// Why it is refused, as a refusal's two numbers.
pub fn tell(refusal: Refusal, answer: &mut [u32]) -> u32
    requires { (refusal.number < 4294967296) × (refusal.beside < 4294967296) }
    ensures { AnswerStored (refused refusal.number refusal.beside) result answer.old answer.new }
{
    refuse(refusal.number, refusal.beside, answer)
}

// What is delivered, in order at the front of the answer.
fn deliver(numbers: &[usize], answer: &mut [u32]) -> u32
    requires few { length numbers.now ≤ 4 }
    requires small { Small (delivered numbers.now) }
    ensures { AnswerStored (delivered numbers.now) result answer.old answer.new }
{
    if 4 <= answer.len() {
        for (i, &n) in numbers.iter().enumerate() {
            answer[i] = n as u32;
        }
    }
    0
}

pub fn store_stage(a: Result<Delivery, StageRefusal>, answer: &mut [u32]) -> u32
    requires { Small (stage_outcome a) }
    ensures { AnswerStored (stage_outcome a) result answer.old answer.new }
{
    match a {
        Ok(d) => deliver(&[d.level, d.boundary, d.pairs, d.bits], answer),
        Err(e) => tell(e.into(), answer),
    }
}

pub fn store_write(a: Result<RecordDelivery, WriteRefusal>, answer: &mut [u32]) -> u32
    requires { Small (writer_outcome a) }
    ensures { AnswerStored (writer_outcome a) result answer.old answer.new }
{
    match a {
        Ok(d) => deliver(&[d.level, d.boundary, d.bits], answer),
        Err(e) => tell(e.into(), answer),
    }
}

pub fn store_read(a: Result<RecordDelivery, ReadRefusal>, answer: &mut [u32]) -> u32
    requires { Small (reader_outcome a) }
    ensures { AnswerStored (reader_outcome a) result answer.old answer.new }
{
    match a {
        Ok(d) => deliver(&[d.level, d.boundary, d.bits], answer),
        Err(e) => tell(e.into(), answer),
    }
}
