// The lines of a file by their names: a list of their offsets sorted in place, and a name searched in one.
#![tactic(auto)]

ghost use Rattle.std.specs.Prelude.{◌≡◌, ◌+◌, ◌≤◌, ◌<◌, eqb, length, drop, unwrap_or, IfSome};
ghost use Rattle.definition.specs.Chars.{byte};
ghost use Rattle.definition_names.specs.Names.{at_most, first_field, name_at, bound, entry_of};
ghost use Rattle.definition_names.specs.IsIndex.{in_order};
ghost use Rattle.ordering.specs.Sorting.{Sifted, Greatest, Heaped, Sorted, RisingIs};

// Whether the name that begins at p of s does not come after the one at q of t.
fn at_most(s: &[u8], p: usize, t: &[u8], q: usize) -> bool
    ensures { result ≡ at_most (first_field (drop p s.now)) (first_field (drop q t.now)) }
{
    let mut i = p;
    let mut j = q;
    // Two cursors in step: which of the two names ends first decides, and a zip does not say which.
    while i < s.len() {
        let x = s[i];
        if x == b';' {
            return true;
        }
        if t.len() <= j || t[j] == b';' {
            return false;
        }
        if x != t[j] {
            return x < t[j];
        }
        i += 1;
        j += 1;
    }
    true
}

// Whether a `;` stands at an index.
fn is_mark(file: &[u8], at: usize) -> bool
    ensures { result ≡ eqb (byte file.now at) 59 }
{
    at < file.len() && file[at] == b';'
}

// Where the name of the line at an offset begins.
pub fn name_at(file: &[u8], offset: u32) -> usize
    ensures { result ≡ name_at file.now offset }
{
    let p = offset as usize;
    if is_mark(file, p + 4) {
        p + 5
    } else if is_mark(file, p + 5) {
        p + 6
    } else {
        p + 7
    }
}

// Whether the line at p does not come after the line at q.
fn in_order(file: &[u8], p: u32, q: u32) -> bool
    ensures { result ≡ in_order file.now p q }
{
    at_most(file, name_at(file, p), file, name_at(file, q))
}

// The child of i after which no other comes.
fn child(file: &[u8], list: &[u32], i: usize, n: usize) -> usize
    requires { (i + i + 1 < n) × (n ≤ length list.now) }
    ensures { Greatest (in_order file.now) list.now i n result }
{
    let left = i + i + 1;
    let right = left + 1;
    if right < n && in_order(file, list[left], list[right]) {
        right
    } else {
        left
    }
}

// Sinks the element at i into the heap of the first n.
fn sift(file: &[u8], list: &mut [u32], i: usize, n: usize)
    requires { (i < n) × (n ≤ length list.old) }
    ensures { Sifted (in_order file.now) list.old i n list.new }
{
    let mut at = i;
    // A step goes down to a child.
    while at < n - at - 1 {
        let c = child(file, list, at, n);
        if in_order(file, list[c], list[at]) {
            return;
        }
        list.swap(at, c);
        at = c;
    }
}

// Makes a heap of the list.
fn heapify(file: &[u8], list: &mut [u32])
    ensures { Heaped (in_order file.now) list.old list.new }
{
    let n = list.len();
    for k in (0..n).rev() {
        sift(file, list, k, n);
    }
}

// Sorts a list of offsets by name.
pub fn sort(file: &[u8], list: &mut [u32])
    ensures { Sorted (in_order file.now) list.old list.new }
{
    heapify(file, list);
    for m in (1..list.len()).rev() {
        list.swap(0, m);
        sift(file, list, 0, m);
    }
}

// Whether the names rise.
pub fn is_rising(file: &[u8], list: &[u32]) -> bool
    ensures { RisingIs (in_order file.now) list.now result }
{
    for k in 1..list.len() {
        if in_order(file, list[k], list[k - 1]) {
            return false;
        }
    }
    true
}

// The first entry, found by halves, whose name does not come before the name from q on.
fn bound(file: &[u8], index: &[u32], name: &[u8], q: usize) -> usize
    ensures { result ≡ bound file.now index.now (first_field (drop q name.now)) }
{
    // A `partition_point` says nothing of entries that are out of order; `bound` says which is found in any.
    let mut low = 0;
    let mut high = index.len();
    while low < high {
        let mid = low + (high - low) / 2;
        let at = name_at(file, index[mid]);
        if at_most(name, q, file, at) {
            high = mid;
        } else {
            low = mid + 1;
        }
    }
    low
}

// The entry with the name from q on, if it is found.
pub fn entry_of(file: &[u8], index: &[u32], name: &[u8], q: usize) -> Option<usize>
    ensures entry { unwrap_or result (length index.now) ≡ entry_of file.now index.now (first_field (drop q name.now)) }
    ensures inside { IfSome result (λ k. k < length index.now) }
{
    let k = bound(file, index, name, q);
    if k < index.len() && at_most(file, name_at(file, index[k]), name, q) {
        Some(k)
    } else {
        None
    }
}
