// The rows between which octagons lie.
ghost use Rattle.scan_runs.specs.Strips.{IsSpan, IsWiderSpan};

use octagon::Oct;

// The least y and the greatest; the bottom is above the top where there is no octagon.
#[derive(Clone, Copy)]
pub(crate) struct Span {
    pub(crate) top: i64,
    pub(crate) bottom: i64,
}

pub(crate) fn span_of(octs: &[Oct]) -> Span
    ensures { IsSpan octs.now result.top result.bottom }
{
    let mut span = Span {
        top: 1099511627776,
        bottom: -1099511627776,
    };
    'octs: for oct in octs {
        span = wider(span, oct);
    }
    span
}

// The span that also has the octagon.
fn wider(span: Span, oct: &Oct) -> Span
    ensures { IsWiderSpan oct.now span.top span.bottom result.top result.bottom }
{
    Span {
        top: span.top.min(oct.y0()),
        bottom: span.bottom.max(oct.y1()),
    }
}
