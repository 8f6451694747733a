// Integers by a format specification: figures are written the units first.
#![tactic(auto)]

ghost use Rattle.std.specs.Prelude.{◌≡◌, ◌+◌, ◌-◌, ◌/◌, ◌%◌, ◌<◌, ◌≤◌, true, [], ◌∷◌, reverse, length, take};
ghost use Rattle.definition_replay.specs.Integers.{digits, base_of, figure, copies, sign_of, left_of, inner_of, written};
ghost use Rattle.buffers.specs.Over.{over};
ghost use Rattle.integers.specs.Written.{one_more, come_after, comes_after, rest_of, zeros_n, group_of, numeral_units, figures_of, prefix_from, head_from, pads_from, least_from, formed, integer, fitting, written_in};

use digits::count_ten;
use forms::{Shape, anew, base_of};

// Figures that were written: their bytes, and how many are to come before the next separator.
#[derive(Clone, Copy)]
pub(crate) struct Run {
    bytes: usize,
    come: usize,
}

// A digit as it is written.
fn figure_of(kind: u8, d: u8) -> u8
    requires { d < 16 }
    ensures { result ≡ figure kind d }
{
    if d < 10 {
        b'0' + d
    } else if kind == b'X' {
        b'A' - 10 + d
    } else {
        b'a' - 10 + d
    }
}

// Writes a figure, behind a separator if none is to come before it; says where the next one goes.
fn put_figure(out: &mut [u8], at: usize, grouping: u8, come: usize, fig: u8) -> usize
    requires { at < 0x1000000000000 }
    ensures { (result ≡ at + length (one_more grouping come fig)) × (out.new ≡ over out.old at (one_more grouping come fig)) }
{
    if grouping != 0 && come == 0 {
        buffers::put(out, at, grouping);
        buffers::put(out, at + 1, fig);
        return at + 2;
    }
    buffers::put(out, at, fig);
    at + 1
}

// How many figures are to come before the next separator, after one.
fn come_after(size: usize, come: usize) -> usize
    requires { 1 ≤ size }
    ensures { result ≡ come_after size come }
{
    if come == 0 { size - 1 } else { come - 1 }
}

// A number's last digit in a base, and the number before it.
#[derive(Clone, Copy)]
pub(crate) struct Split {
    rest: u32,
    digit: u8,
}

// Takes the last digit of a number in a base; a division by a constant is a cheap one.
fn last_digit(n: u32, base: u32) -> Split
    requires { (1 < base) × (base ≤ 16) }
    ensures { (result.rest ≡ n / base) × (result.digit ≡ n % base) }
{
    match base {
        10 => Split {
            rest: n / 10,
            digit: (n % 10) as u8,
        },
        16 => Split {
            rest: n / 16,
            digit: (n % 16) as u8,
        },
        _ => Split {
            rest: n / base,
            digit: (n % base) as u8,
        },
    }
}

// Writes the figures of a number in a base, the units first, from the front on.
fn figures(out: &mut [u8], number: u32, base: u32, kind: u8, grouping: u8, size: usize) -> Run
    requires { (1 < base) × (base ≤ 16) × (1 ≤ size) }
    ensures { (result.bytes ≡ length (rest_of grouping size size kind (digits base number))) × (result.come ≡ comes_after size size (digits base number)) × (result.bytes ≤ 0x200000000) × (out.new ≡ over out.old 0 (rest_of grouping size size kind (digits base number))) }
{
    let mut n = number;
    let mut at: usize = 0;
    let mut come = size;
    // A step is a division.
    while base <= n {
        let parts = last_digit(n, base);
        let fig = figure_of(kind, parts.digit);
        at = put_figure(out, at, grouping, come, fig);
        come = come_after(size, come);
        n = parts.rest;
    }
    let fig = figure_of(kind, n as u8);
    Run {
        bytes: put_figure(out, at, grouping, come, fig),
        come: come_after(size, come),
    }
}

// Writes the figures of a number in a base without separators, the units first, from the front on; says how many they are.
// Apart from `figures`, which would do, since that one was slower.
fn plain_figures(out: &mut [u8], number: u32, base: u32, kind: u8) -> usize
    requires { (1 < base) × (base ≤ 16) }
    ensures { (result ≡ length (rest_of 0 1 1 kind (digits base number))) × (result ≤ 0x200000000) × (out.new ≡ over out.old 0 (rest_of 0 1 1 kind (digits base number))) }
{
    let mut n = number;
    let mut at: usize = 0;
    // A step is a division.
    while base <= n {
        let parts = last_digit(n, base);
        let fig = figure_of(kind, parts.digit);
        buffers::put(out, at, fig);
        n = parts.rest;
        at += 1;
    }
    let fig = figure_of(kind, n as u8);
    buffers::put(out, at, fig);
    at + 1
}

// Writes zeros from an index on until that many bytes stand there; says where they end.
fn zeros(out: &mut [u8], at: usize, come: usize, grouping: u8, size: usize, least: usize) -> usize
    requires { (at ≤ 0x200000000) × (least ≤ 0x200000000) × (1 ≤ size) }
    ensures { (result ≡ at + length (zeros_n least least grouping size at come)) × (out.new ≡ over out.old at (zeros_n least least grouping size at come)) }
{
    let mut to = at;
    let mut c = come;
    // A step is a zero, with a separator or without.
    while to < least {
        to = put_figure(out, to, grouping, c, b'0');
        c = come_after(size, c);
    }
    to
}

// How many figures a group has.
fn group_size(base: u32) -> usize
    ensures { (result ≡ group_of base) × (1 ≤ result) }
{
    if base == 10 { 3 } else { 4 }
}

// Writes the figures of a number, the units first, with zeros until that many bytes stand there; says how many do.
fn numeral(out: &mut [u8], number: u32, kind: u8, grouping: u8, least: usize) -> usize
    requires { (1 < base_of kind) × (base_of kind ≤ 16) × (least ≤ 64) }
    ensures { (result ≡ length (numeral_units kind grouping least number)) × (out.new ≡ over out.old 0 (numeral_units kind grouping least number)) }
{
    let base = base_of(kind);
    let size = group_size(base);
    if grouping == 0 {
        let plain = plain_figures(out, number, base, kind);
        return zeros(out, plain, size, grouping, size, least);
    }
    let Run { bytes, come } = figures(out, number, base, kind, grouping, size);
    zeros(out, bytes, come, grouping, size, least)
}

// Writes so many copies of a byte from the used length on; says where they end. Apart from `add_runs`, which was slower for one byte.
fn add_bytes(out: &mut [u8], used: usize, count: usize, byte: u8) -> usize
    requires { used + length (copies count (byte ∷ [])) ≤ 0x4000000000000000 }
    ensures { (result ≡ used + length (copies count (byte ∷ []))) × (out.new ≡ over out.old used (copies count (byte ∷ []))) }
{
    for i in 0..count {
        buffers::put(out, used + i, byte);
    }
    used + count
}

// Writes so many copies of some bytes from the used length on; says where they end.
fn add_runs(out: &mut [u8], used: usize, count: usize, fill: &[u8]) -> usize
    requires { used + length (copies count fill.now) ≤ 0x4000000000000000 }
    ensures { (result ≡ used + length (copies count fill.now)) × (out.new ≡ over out.old used (copies count fill.now)) }
{
    let mut at = used;
    for _ in 0..count {
        buffers::add_run(out, at, fill);
        at += fill.len();
    }
    at
}

// Writes so many copies of a fill from the used length on; says where they end.
fn add_copies(out: &mut [u8], used: usize, count: usize, fill: &[u8]) -> usize
    requires { used + length (copies count fill.now) ≤ 0x4000000000000000 }
    ensures { (result ≡ used + length (copies count fill.now)) × (out.new ≡ over out.old used (copies count fill.now)) }
{
    match fill {
        [byte] => add_bytes(out, used, count, *byte),
        _ => add_runs(out, used, count, fill),
    }
}

// Writes the first bytes of some from the used length on, the last one first; says where they end.
fn add_reversed(out: &mut [u8], used: usize, units: &[u8], count: usize) -> usize
    requires { (count ≤ length units.now) × (used + count ≤ 0x4000000000000000) }
    ensures { (result ≡ used + count) × (out.new ≡ over out.old used (reverse (take count units.now))) }
{
    for i in 0..count {
        buffers::put(out, used + i, units[count - 1 - i]);
    }
    used + count
}

// Writes the sign of an integer; says where it ends.
fn put_sign(out: &mut [u8], at: usize, sign: u8, negative: bool) -> usize
    requires { at ≤ 0x1000000000000 }
    ensures { (result ≡ at + length (sign_of sign negative)) × (out.new ≡ over out.old at (sign_of sign negative)) }
{
    if negative {
        buffers::put(out, at, b'-');
        return at + 1;
    }
    match sign {
        b'+' | b' ' => {
            buffers::put(out, at, sign);
            at + 1
        }
        _ => at,
    }
}

// Writes the prefix of a base, if it is asked for; says where it ends.
fn put_prefix(out: &mut [u8], at: usize, alternate: bool, kind: u8) -> usize
    requires { at ≤ 0x1000000000010 }
    ensures { (result ≡ at + length (prefix_from alternate kind)) × (out.new ≡ over out.old at (prefix_from alternate kind)) }
{
    if !alternate || base_of(kind) == 10 {
        return at;
    }
    buffers::put(out, at, b'0');
    buffers::put(out, at + 1, kind);
    at + 2
}

// Writes sign and prefix; says where they end.
fn put_head(out: &mut [u8], at: usize, sign: u8, alternate: bool, kind: u8, negative: bool) -> usize
    requires { at ≤ 0x1000000000000 }
    ensures { (result ≡ at + length (head_from sign alternate kind negative)) × (out.new ≡ over out.old at (head_from sign alternate kind negative)) }
{
    let next = put_sign(out, at, sign, negative);
    put_prefix(out, next, alternate, kind)
}

// Whether zeros belong to the number.
fn zero_pads(fill: &[u8], align: u8) -> bool
    ensures { result ≡ pads_from fill.now align }
{
    align == b'=' && fill.len() == 1 && fill[0] == b'0'
}

// How many fills come first.
fn left_of(align: u8, pad: usize) -> usize
    ensures { result ≡ left_of align pad }
{
    match align {
        b'<' | b'=' => 0,
        b'>' => pad,
        _ => pad / 2,
    }
}

// How many fills come behind the head.
fn inner_of(align: u8, pad: usize) -> usize
    ensures { result ≡ inner_of align pad }
{
    if align == b'=' { pad } else { 0 }
}

// The bytes that a width leaves to figures behind a head, if zeros belong to the number.
fn least_of(fill: &[u8], align: u8, width: usize, head: usize) -> usize
    ensures { result ≡ least_from fill.now align width head }
{
    if zero_pads(fill, align) {
        width.saturating_sub(head)
    } else {
        0
    }
}

// Writes an integer by a form within the set from an index on; says where it ends.
fn write_at(
    out: &mut [u8],
    at: usize,
    fill: &[u8],
    shape: Shape,
    negative: bool,
    size: u32,
) -> usize
    requires { (1 < base_of shape.kind) × (shape.width ≤ 64) × (length fill.now ≤ 4) × (at ≤ 0x100000000000) }
    ensures { (result ≡ at + length (written (formed fill.now shape) (integer negative size))) × (out.new ≡ over out.old at (written (formed fill.now shape) (integer negative size))) }
{
    let Shape {
        align,
        sign,
        alternate,
        width,
        grouping,
        kind,
    } = shape;
    let mut space = [0u8; 4];
    let head = put_head(&mut space, 0, sign, alternate, kind, negative);
    let least = least_of(fill, align, width, head);
    let mut units = [0u8; 80];
    let count = numeral(&mut units, size, kind, grouping, least);
    let pad = width.saturating_sub(head + count);
    let left = left_of(align, pad);
    let inner = inner_of(align, pad);
    let one = add_copies(out, at, left, fill);
    let two = put_head(out, one, sign, alternate, kind, negative);
    let three = add_copies(out, two, inner, fill);
    let four = add_reversed(out, three, &units, count);
    add_copies(out, four, pad - (left + inner), fill)
}

// Whether a form is one within the set: an integer's type, a width up to 64, and a fill of one character.
fn is_fitting(fill: usize, shape: Shape) -> bool
    ensures { result ≡ fitting fill shape }
{
    base_of(shape.kind) != 0 && shape.width <= 64 && fill <= 4
}

// Writes an integer by a form from the front on, nothing by one outside the set; says how many bytes it has.
pub fn write(out: &mut [u8], fill: &[u8], shape: Shape, negative: bool, size: u32) -> usize
    ensures { (result ≡ length (written_in fill.now shape (integer negative size))) × (out.new ≡ over out.old 0 (written_in fill.now shape (integer negative size))) }
{
    if !is_fitting(fill.len(), shape) {
        return 0;
    }
    write_at(out, 0, fill, shape, negative, size)
}

// How many figures a number has in a base.
fn count_figures(number: u32, base: u32) -> usize
    requires { (1 < base) × (base ≤ 16) }
    ensures { result ≡ length (digits base number) }
{
    if base == 10 {
        return count_ten(number);
    }
    let mut n = number;
    let mut count: usize = 1;
    // A step is a division.
    while base <= n {
        n = last_digit(n, base).rest;
        count += 1;
    }
    count
}

// Writes the figures of a number in a base, so many, from an index on, the units last; says where they end.
fn put_figures(out: &mut [u8], from: usize, count: usize, number: u32, base: u32, kind: u8) -> usize
    requires { (1 < base) × (base ≤ 16) × (count ≡ length (digits base number)) × (from + count ≤ length out.old) }
    ensures { (result ≡ from + count) × (out.new ≡ over out.old from (figures_of kind base number)) }
{
    let to = from + count;
    let mut n = number;
    let mut at = to;
    // A step is a division.
    while base <= n {
        let parts = last_digit(n, base);
        let fig = figure_of(kind, parts.digit);
        at -= 1;
        out[at] = fig;
        n = parts.rest;
    }
    out[from] = figure_of(kind, n as u8);
    to
}

// Whether a form is within the set and has neither groups nor a sign, and any integer by it has room.
fn is_plain(shape: Shape, room: usize) -> bool
    ensures { result ≡ true → (shape.grouping ≡ 0) × (1 < base_of shape.kind) × (shape.width ≤ 64) × (128 ≤ room) }
{
    128 <= room
        && shape.grouping == 0
        && shape.sign == 0
        && shape.width <= 64
        && base_of(shape.kind) != 0
}

// Writes an integer by a form within the set, without groups and with a fill of one byte, from the front on, where there is room for any; says how many bytes it has.
// Apart from `write_at`, which was slower: no numeral is held, and its figures are counted first.
fn write_plain(out: &mut [u8], byte: u8, shape: Shape, negative: bool, size: u32) -> usize
    requires { (shape.grouping ≡ 0) × (1 < base_of shape.kind) × (shape.width ≤ 64) × (128 ≤ length out.old) }
    ensures { (result ≡ length (written (formed (byte ∷ []) shape) (integer negative size))) × (out.new ≡ over out.old 0 (written (formed (byte ∷ []) shape) (integer negative size))) }
{
    let Shape {
        align,
        sign,
        alternate,
        width,
        kind,
        ..
    } = shape;
    let mut space = [0u8; 4];
    let head = put_head(&mut space, 0, sign, alternate, kind, negative);
    let base = base_of(kind);
    let count = count_figures(size, base);
    let pad = width.saturating_sub(head + count);
    let left = left_of(align, pad);
    let inner = inner_of(align, pad);
    let one = add_bytes(out, 0, left, byte);
    let two = put_head(out, one, sign, alternate, kind, negative);
    let three = add_bytes(out, two, inner, byte);
    let four = put_figures(out, three, count, size, base, kind);
    add_bytes(out, four, pad - (left + inner), byte)
}

// Writes an integer by a form with a fill of one byte from the front on, nothing by one outside the set; says how many bytes it has.
pub fn write_one(out: &mut [u8], byte: u8, shape: Shape, negative: bool, size: u32) -> usize
    ensures { (result ≡ length (written_in (byte ∷ []) shape (integer negative size))) × (out.new ≡ over out.old 0 (written_in (byte ∷ []) shape (integer negative size))) }
{
    if is_plain(shape, out.len()) {
        return write_plain(out, byte, shape, negative, size);
    }
    write(out, &[byte], anew(shape), negative, size)
}
