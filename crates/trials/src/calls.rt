// The public calls behind one form: the only place that knows the types of their answers.
use crate::outcome::{Answer, Answered, Finding, Outcome, Refused};
use documents::check::{Checked, check_document};
use files::read::read_rules;
use files::rules::Rules;
use files::write::write_rules;
use reasoning::consistency::{Verdict, consistency};
use reasoning::question;
use reasoning::question::Reply;

// Whether a file is accepted.
pub fn acceptance(file: &[u8]) -> Result<(), Refused> {
    Ok(read_rules(file).answer?)
}

// The table that reading hands back, of a refused file too.
pub fn table_of(file: &[u8]) -> Rules {
    read_rules(file).rules
}

pub fn read(file: &[u8]) -> Result<Rules, Refused> {
    let reading = read_rules(file);
    reading.answer?;
    Ok(reading.rules)
}

pub fn check(rules: &Rules, document: &[u8]) -> Result<Checked, Refused> {
    Ok(check_document(*rules, document)?)
}

pub fn finding(rules: &Rules, document: &[u8]) -> Finding {
    check(rules, document).map_or(Finding::Refused, Finding::from)
}

fn answered(answer: Answer, length: usize) -> Outcome {
    Ok(Answered { answer, length })
}

pub fn write(rules: &Rules, out: &mut [u8]) -> Outcome {
    answered(Answer::Written, write_rules(*rules, out)?)
}

pub fn decide(rules: &Rules, out: &mut [u8]) -> Outcome {
    match consistency(*rules, out)? {
        Verdict::Consistent(n) => answered(Answer::Consistent, n),
        Verdict::Inconsistent(n) => answered(Answer::Inconsistent, n),
    }
}

// The kind is a number, since one of no kind is asked too.
pub fn ask(rules: &Rules, kind: usize, left: usize, right: usize, out: &mut [u8]) -> Outcome {
    match question::ask(*rules, kind, left, right, out)? {
        Reply::Yes(n) => answered(Answer::Yes, n),
        Reply::No(n) => answered(Answer::No, n),
    }
}
