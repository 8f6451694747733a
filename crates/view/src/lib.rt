// A view over an accepted answer: the record at a number.
#![tactic(auto)]

ghost use Rattle.std.specs.Prelude.{◌≡◌};
ghost use Rattle.definition.specs.View.{viewed};
ghost use Rattle.view.specs.Answers.{says};

use record_words::Record;

// The words of an accepted answer, and its count of records.
#[derive(Clone, Copy)]
pub struct View<'a> {
    pub words: &'a [u32],
    pub count: u32,
}

// The record at a number from 0; none if the number is not below the count or the words end before that record does.
pub fn record_at(words: &[u32], count: u32, number: u32) -> Option<Record>
    ensures { says result ≡ viewed words.now count number }
{
    if count <= number {
        return None;
    }
    let past = number as usize * 8 + 8;
    if words.len() < past {
        return None;
    }
    let at = past - 8;
    Some(Record {
        kind: words[at],
        offset: words[at + 1],
        length: words[at + 2],
        start: words[at + 3],
        end: words[at + 4],
        conversion: words[at + 5],
        parts: words[at + 6],
        place: words[at + 7],
    })
}

impl<'a> View<'a> {
    // The record at a number from 0, of the words and the count that the view holds.
    pub fn get(self, number: u32) -> Option<Record>
        ensures { says result ≡ viewed self.entry.words.now self.entry.count number }
    {
        record_at(self.words, self.count, number)
    }
}
