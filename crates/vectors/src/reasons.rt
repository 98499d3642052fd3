// A reasons vector: an event file, and what is printed about its records, each by its number.
use crate::input;
use crate::input::Unread;
use events::{Question, Said};
use std::io::Read;

// The bytes of a question: how many bytes of the number are there, the number, the length of what is printed, and that.
const QUESTION: usize = 17;

// What is said of a record, by a file in blocks; none is read after the one that says it.
fn explained(file: &[u8], number: &[u8]) -> Option<Said> {
    let mut e = Question::new(number);
    for block in file.chunks(streams::BLOCK) {
        if e.said.is_some() {
            break;
        }
        e = e.next.read(block);
    }
    e.said
}

// Whether this is printed about a record.
fn prints(file: &[u8], number: &[u8], expected: &[u8]) -> bool {
    let said = explained(file, number).map(|said| events::numbered(said));
    let line = events::explained_line(said);
    line.as_bytes() == expected
}

// Whether a question has the expected answer.
fn answers(file: &[u8], question: &[u8; QUESTION]) -> bool {
    let number = question[1..5].get(..usize::from(question[0]));
    let expected = question[6..].get(..usize::from(question[5]));
    match (number, expected) {
        (Some(number), Some(expected)) => prints(file, number, expected),
        _ => false,
    }
}

// The next reasons vector.
pub fn next(source: &mut impl Read) -> Result<bool, Unread> {
    let mut file = [[0]; input::LONGEST_FILE];
    let file = input::list::<4, _>(source, &mut file)?.as_flattened();
    let mut questions = [[0; QUESTION]; input::LONGEST_LIST / QUESTION];
    let questions = input::list::<2, _>(source, &mut questions)?;
    Ok(questions.iter().all(|question| answers(file, question)))
}
