// An answer of the list's calls as numbers, in an answer that is long enough.
ghost use Rattle.std.specs.Prelude.{[], ◌∷◌, ◌<◌, ◌≤◌, length};
ghost use Rattle.rules.specs.Refusals.{delivered, refused};
ghost use Rattle.rules_files.specs.List.{entry_numbers, summary_numbers, list_read_outcome, entry_outcome, summary_outcome};
ghost use Rattle.hca_answers.specs.Outcomes.{Small, AnswerStored};
ghost use Rattle.hca_files.specs.Lists.{SummaryStored};

use hca_answers::refuse;
use refusals::Refusal;
use rules_files::list::{Entry, EntryRefusal, ListReadRefusal, Summary, SummaryRefusal};

fn deliver_frames(n: usize, answer: &mut [u32]) -> u32
    requires { (n < 4294967296) × (4 ≤ length answer.old) }
    ensures { AnswerStored (delivered (n ∷ [])) result answer.old answer.new }
{
    answer[0] = n as u32;
    0
}

pub fn store_list(a: Result<usize, ListReadRefusal>, answer: &mut [u32]) -> u32
    requires { Small (list_read_outcome a) × (4 ≤ length answer.old) }
    ensures { AnswerStored (list_read_outcome a) result answer.old answer.new }
{
    match a {
        Ok(n) => deliver_frames(n, answer),
        Err(e) => {
            let r = Refusal::from(e);
            refuse(r.number, r.beside, answer)
        }
    }
}

fn deliver_entry(entry: Entry, answer: &mut [u32]) -> u32
    requires { 4 ≤ length answer.old }
    ensures { AnswerStored (delivered (entry_numbers entry)) result answer.old answer.new }
{
    answer[0] = entry.level;
    answer[1] = entry.boundary;
    answer[2] = entry.pairs;
    answer[3] = entry.bits;
    0
}

pub fn store_entry(a: Result<Entry, EntryRefusal>, answer: &mut [u32]) -> u32
    requires { 4 ≤ length answer.old }
    ensures { AnswerStored (entry_outcome a) result answer.old answer.new }
{
    match a {
        Ok(entry) => deliver_entry(entry, answer),
        Err(e) => {
            let r = Refusal::from(e);
            refuse(r.number, r.beside, answer)
        }
    }
}

fn refuse_summary(number: usize, answer: &mut [u64]) -> u32
    requires { (number < 4294967296) × (3 ≤ length answer.old) }
    ensures { SummaryStored (refused number 0) result answer.old answer.new }
{
    answer[0] = 0;
    number as u32
}

fn deliver_summary(s: Summary, answer: &mut [u64]) -> u32
    requires { 3 ≤ length answer.old }
    ensures { SummaryStored (delivered (summary_numbers s)) result answer.old answer.new }
{
    answer[0] = s.level;
    answer[1] = s.pairs;
    answer[2] = s.bits;
    0
}

pub fn store_summary(a: Result<Summary, SummaryRefusal>, answer: &mut [u64]) -> u32
    requires { 3 ≤ length answer.old }
    ensures { SummaryStored (summary_outcome a) result answer.old answer.new }
{
    match a {
        Ok(s) => deliver_summary(s, answer),
        Err(e) => refuse_summary(Refusal::from(e).number, answer),
    }
}
