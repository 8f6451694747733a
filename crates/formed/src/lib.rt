// Whether an answer that is lent is well formed: by the record rules, ranges, places, u marks and touching literals aside, its texts UTF-8.
#![tactic(auto)]

ghost use Rattle.std.specs.Prelude.{◌≡◌, false, ◌+◌, get_or};
ghost use Rattle.definition.specs.Chars.{part};
ghost use Rattle.definition.specs.Words.{is_conversion, fits, has_spec, no_bytes, sorted, sort_from};
ghost use Rattle.definition_formed.specs.Formed.{lent, is_utf8, is_formed};
ghost use Rattle.formed.specs.Heads.{head_at};
ghost use Rattle.formed.specs.Good.{records_at, follows_in, good_head, good_from};

// The words of a record that are looked at; a literal has its u mark for a mode.
#[derive(Clone, Copy, PartialEq, Eq)]
pub struct Head {
    pub kind: u32,
    pub offset: u32,
    pub size: u32,
    pub mode: u32,
    pub parts: u32,
}

// The number at an index; 0 where the numbers end, as the definition has it.
pub fn number_at(numbers: &[u32], at: usize) -> u32
    ensures { result ≡ get_or numbers.now at 0 }
{
    numbers.get(at).copied().unwrap_or(0)
}

// The record of a number; 0 for each word that the words end before.
#[tactic(auto, unfolding(crate::specs::Heads::head_at))]
pub fn record_at(words: &[u32], i: u32) -> Head
    ensures { result ≡ head_at words.now i }
{
    let at = i as usize * 8;
    // One test of the last index, where a pattern over `words.get(at..)` would test twice.
    if at + 6 < words.len() {
        return Head {
            kind: words[at],
            offset: words[at + 1],
            size: words[at + 2],
            mode: words[at + 5],
            parts: words[at + 6],
        };
    }
    Head {
        kind: number_at(words, at),
        offset: number_at(words, at + 1),
        size: number_at(words, at + 2),
        mode: number_at(words, at + 5),
        parts: number_at(words, at + 6),
    }
}

// Whether a number is a conversion: none, s, a or r.
fn is_conversion(mode: u32) -> bool
    ensures { result ≡ is_conversion mode }
{
    // The numbers are the codes of `s`, `a` and `r`.
    matches!(mode, 0 | 115 | 97 | 114)
}

// Whether a field has a spec.
fn has_spec(kind: u32, parts: u32) -> bool
    ensures { result ≡ has_spec kind parts }
{
    kind == 2 && parts == 1
}

// Whether a record's kind is known and has what it may have, places aside.
// One match over the kinds is plainer than a chain.
#[tactic(auto, unfolding(definition::specs::Words::fits))]
fn fits(h: Head) -> bool
    ensures { result ≡ fits h.kind h.size h.mode h.parts 0 }
{
    match h.kind {
        1 | 4 => h.parts == 0,
        2 => is_conversion(h.mode) && h.parts <= 1,
        3 => h.size == 0 && h.mode == 0,
        _ => false,
    }
}

// Whether a record of a kind may stand where a spec is due or not and so much is owed.
fn follows(due: bool, owed: u64, kind: u32) -> bool
    ensures { result ≡ follows_in due owed kind }
{
    match kind {
        3 => due,
        4 => !due && owed == 0,
        _ => !due,
    }
}

// Whether a part of a text is UTF-8; what would lie past the end is left out.
fn is_utf8(text: &[u8], offset: u32, size: u32) -> bool
    ensures { result ≡ is_utf8 (part text.now offset (offset + size)) }
{
    let at = offset as usize;
    let start = at.min(text.len());
    let end = (at + size as usize).min(text.len());
    let formed = prefixes::well_formed(&text[start..end]);
    end - start <= formed.len
}

// Whether a record is good where a spec is due or not, so much is owed and the text was reached.
#[tactic(auto, unfolding(crate::specs::Good::good_head))]
fn is_good(text: &[u8], h: Head, due: bool, owed: u64, at: u64) -> bool
    ensures { result ≡ good_head text.now due owed at h }
{
    fits(h)
        && follows(due, owed, h.kind)
        && h.offset as u64 == at
        && (h.kind == 4 || is_utf8(text, h.offset, h.size))
}

// Whether so many records are good over a text.
fn are_good(words: &[u32], count: u32, text: &[u8]) -> bool
    ensures { result ≡ good_from text.now false 0 0 (records_at words.now count 0 0) }
{
    let mut due = false;
    let mut owed: u64 = 0;
    let mut at: u64 = 0;
    for i in 0..count {
        let h = record_at(words, i);
        if !is_good(text, h, due, owed, at) {
            return false;
        }
        due = has_spec(h.kind, h.parts);
        owed = owed.saturating_sub(1) + h.parts as u64;
        at += h.size as u64;
    }
    owed == 0 && at == text.len() as u64
}

// Whether no record of so many is one of bytes.
fn no_bytes(words: &[u32], count: u32) -> bool
    ensures { result ≡ no_bytes (records_at words.now count 0 0) }
{
    for i in 0..count {
        if record_at(words, i).kind == 4 {
            return false;
        }
    }
    true
}

// Whether so many records are as their sort asks.
fn is_sorted(words: &[u32], count: u32, sort: u32) -> bool
    ensures { result ≡ sorted (sort_from sort) (records_at words.now count 0 0) }
{
    match sort {
        0 => count == 1 && record_at(words, 0).kind == 1,
        1 => no_bytes(words, count),
        _ => count == 1 && record_at(words, 0).kind == 4,
    }
}

// Whether an answer that is lent, as its numbers, 0 first, its words and its text, is well formed.
// Guards, since each gives what the next one needs.
pub fn is_formed(numbers: &[u32], words: &[u32], text: &[u8]) -> bool
    ensures { result ≡ is_formed (lent numbers.now words.now text.now) }
{
    let sort = number_at(numbers, 1);
    let count = number_at(numbers, 5);
    let size = number_at(numbers, 6) as usize;
    if number_at(numbers, 0) != 0
        || 2 < sort
        || words.len() < count as usize * 8
        || text.len() < size
    {
        return false;
    }
    are_good(words, count, &text[..size]) && is_sorted(words, count, sort)
}
