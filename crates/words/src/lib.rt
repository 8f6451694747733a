// The byte at an index of a script, and the word that ends before a literal's start: whether one does, where it begins, and whether it may stand there.
#![tactic(auto)]

ghost use Rattle.std.specs.Prelude.{◌≡◌, true, ◌+◌, ◌≤◌, length};
ghost use Rattle.definition.specs.Numbers.{◌among◌};
ghost use Rattle.definition.specs.Chars.{byte, inside, ◌to◌, part};
ghost use Rattle.definition_scripts.specs.Opening.{is_word, apart};
ghost use Rattle.definition_scripts.specs.Keywords.{in_word, word_start, keywords, is_one_of, ends_in_keyword, may_stand};
ghost use Rattle.words.specs.Packed.{packed, bytes, packed_keywords};

// The byte at an index, as a number; 256 past the end, a promise of `byte_at`: it is the definition's `byte`.
pub fn byte_at(s: &[u8], at: usize) -> u32
    ensures { result ≡ byte s.now at }
{
    match s.get(at) {
        Some(b) => u32::from(*b),
        None => 256,
    }
}

// Whether a byte is an ASCII letter, digit or underscore.
fn is_word(c: u8) -> bool
    ensures { result ≡ is_word c }
{
    matches!(c, b'0'..=b'9' | b'A'..=b'Z' | b'a'..=b'z' | b'_')
}

// Whether one stands at an index.
fn is_word_at(s: &[u8], at: usize) -> bool
    ensures { result ≡ is_word (byte s.now at) }
{
    s.get(at).is_some_and(|b| is_word(*b))
}

// Whether none of these stands before an index.
pub fn apart(s: &[u8], at: usize) -> bool
    ensures { result ≡ apart s.now at }
{
    at == 0 || !is_word_at(s, at - 1)
}

// Whether a byte that stands in words stands at an index.
fn in_word_at(s: &[u8], at: usize) -> bool
    ensures { result ≡ in_word (byte s.now at) }
{
    s.get(at).is_some_and(|b| is_word(*b) || !b.is_ascii())
}

// Where the word begins that ends before an index; the index, if none does: a promise of `word_start`, which the definition has.
pub fn word_start(s: &[u8], at: usize) -> usize
    ensures { result ≡ word_start s.now at }
{
    for i in (0..at).rev() {
        if !in_word_at(s, i) {
            return i + 1;
        }
    }
    0
}

// The bytes from one index up to another, at most six, as one number: the first is the least, and above the last stands 1.
fn packed(s: &[u8], from: usize, end: usize) -> u64
    requires { (from ≤ end) × (end ≤ from + 6) × (end ≤ length s.now) }
    ensures { (result ≡ packed (part s.now from end)) × (bytes (part s.now from end) ≡ true) }
{
    let mut n = 1;
    for i in (from..end).rev() {
        n = n * 256 + u64::from(s[i]);
    }
    n
}

// Whether a number is a keyword's that may stand directly before a literal, in the order of the definition.
// One match over the numbers of all keywords is the plainest.
fn is_packed(n: u64) -> bool
    ensures { result ≡ n among packed_keywords }
{
    match n {
        0x1646E61
        | 0x17361
        | 0x1747265737361
        | 0x17469617761
        | 0x165736163
        | 0x16C6564
        | 0x166696C65
        | 0x165736C65
        | 0x1747065637865
        | 0x1726F66
        | 0x16D6F7266
        | 0x16669
        | 0x16E69
        | 0x17369
        | 0x1686374616D
        | 0x1746F6E
        | 0x1726F
        | 0x16573696172
        | 0x16E7275746572
        | 0x1656C696877
        | 0x168746977
        | 0x1646C656979 => true,
        _ => false,
    }
}

// Whether the bytes from one index up to another are such a keyword.
fn is_keyword(s: &[u8], from: usize, end: usize) -> bool
    requires { (from ≤ end) × (end ≤ length s.now) }
    ensures { result ≡ is_one_of (part s.now from end) keywords }
{
    end - from <= 6 && is_packed(packed(s, from, end))
}

// Whether they end in one.
fn ends_in_keyword(s: &[u8], from: usize, end: usize) -> bool
    requires { (from ≤ end) × (end ≤ length s.now) }
    ensures { result ≡ ends_in_keyword (part s.now from end) }
{
    for i in from..end {
        if is_keyword(s, i, end) {
            return true;
        }
    }
    false
}

// Whether a literal may start at an index, by the word that ends before it.
pub fn may_stand(s: &[u8], at: usize) -> bool
    ensures { result ≡ may_stand s.now at }
{
    let from = word_start(s, at);
    from == at
        || is_keyword(s, from, at)
        || s[from].is_ascii_digit() && ends_in_keyword(s, from + 1, at)
}
