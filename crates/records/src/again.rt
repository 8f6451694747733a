// Values made anew, field by field: a call that is rare is then handed memory that only its own branch writes, which is faster.
ghost use Rattle.std.specs.Prelude.{◌≡◌};

use crate::{Frame, Sink, Whole, Window};

// The same literal.
pub fn frame_again(fr: Frame) -> Frame
    ensures { result ≡ fr }
{
    Frame {
        kind: fr.kind,
        start: fr.start,
        end: fr.end,
        base: fr.base,
        window: Window {
            within: fr.window.within,
            skip: fr.window.skip,
        },
        whole: Whole {
            kind: fr.whole.kind,
            start: fr.whole.start,
            end: fr.whole.end,
            mark: fr.whole.mark,
        },
    }
}

// The same counters.
pub fn sink_again(k: Sink) -> Sink
    ensures { result ≡ k }
{
    Sink {
        count: k.count,
        used: k.used,
        held: k.held,
        from: k.from,
        parts: k.parts,
    }
}
