//! Ranges of numbers.

use author_text::tree::{Comparison, ScaleOp, SumOp};

/// From `low` up to and with `high`.
#[derive(Clone, Copy, PartialEq, Eq)]
pub(crate) struct Range {
    pub(crate) low: u32,
    pub(crate) high: u32,
}

impl Range {
    /// All numbers.
    pub(crate) const ALL: Range = Range {
        low: 0,
        high: u32::MAX,
    };

    /// From 0 on.
    pub(crate) fn up_to(high: u32) -> Range {
        Range { low: 0, high }
    }

    /// One number.
    pub(crate) fn only(value: u32) -> Range {
        Range {
            low: value,
            high: value,
        }
    }

    /// Those of the numbers for which a comparison with a constant is so; none where there are none.
    pub(crate) fn compared(self, op: Comparison, value: u32, sense: bool) -> Option<Range> {
        let Range { low, high } = self;
        let (low, high) = match (op, sense) {
            (Comparison::Less, true) | (Comparison::GreaterOrEqual, false) => {
                if value == 0 {
                    return None;
                }
                (low, high.min(value - 1))
            }
            (Comparison::Less, false) | (Comparison::GreaterOrEqual, true) => {
                (low.max(value), high)
            }
            (Comparison::Equal, true) | (Comparison::NotEqual, false) => {
                (low.max(value), high.min(value))
            }
            (Comparison::Equal, false) | (Comparison::NotEqual, true) => {
                return self.without(value);
            }
            _ => (low, high),
        };
        if low <= high {
            Some(Range { low, high })
        } else {
            None
        }
    }

    /// Without a number that stands at an end.
    fn without(self, value: u32) -> Option<Range> {
        let Range { low, high } = self;
        if low == value && high == value {
            None
        } else if low == value {
            Some(Range {
                low: low.saturating_add(1),
                high,
            })
        } else if high == value {
            Some(Range {
                low,
                high: high.saturating_sub(1),
            })
        } else {
            Some(self)
        }
    }

    /// Both ranges, and what lies between them.
    pub(crate) fn with(self, other: Range) -> Range {
        Range {
            low: self.low.min(other.low),
            high: self.high.max(other.high),
        }
    }

    /// A range that grew out of this one, grown so far that it soon grows no more.
    pub(crate) fn widened_to(self, new: Range) -> Range {
        let low = if new.low < self.low { 0 } else { new.low };
        let high = if new.high <= self.high {
            new.high
        } else if new.high <= 255 {
            255
        } else if new.high <= 65535 {
            65535
        } else {
            u32::MAX
        };
        Range { low, high }
    }

    /// Of a sum or a difference.
    pub(crate) fn of_sum(op: SumOp, left: Range, right: Range) -> Range {
        match op {
            SumOp::Add => Range {
                low: left.low.saturating_add(right.low),
                high: left.high.saturating_add(right.high),
            },
            SumOp::Sub => Range {
                low: left.low.saturating_sub(right.high),
                high: left.high.saturating_sub(right.low),
            },
        }
    }

    /// Of a product, a quotient or a rest.
    pub(crate) fn of_scale(op: ScaleOp, left: Range, by: u32) -> Range {
        match op {
            ScaleOp::Times => Range {
                low: left.low.saturating_mul(by),
                high: left.high.saturating_mul(by),
            },
            ScaleOp::Over if by != 0 => Range {
                low: left.low / by,
                high: left.high / by,
            },
            ScaleOp::Modulo if left.high < by => left,
            ScaleOp::Over | ScaleOp::Modulo => Range::up_to(by.saturating_sub(1)),
        }
    }
}
