// An answer of a batch, read from the output: its head, and the detail of a read or a commit.
use memory::numbers;

#[derive(Drop)]
pub(crate) struct Head {
    pub(crate) first: u64,
    pub(crate) second: u64,
    pub(crate) refusal: u8,
    pub(crate) flag: u8,
}

// The head of record i; zeros, where the output has none.
pub(crate) fn head_at(out: &[u8], i: usize) -> Head {
    if out.len() / model_batch::HEAD_WIDTH <= i {
        return Head {
            first: 0,
            second: 0,
            refusal: 0,
            flag: 0,
        };
    }
    let at = batch_heads::place(i);
    Head {
        first: numbers::read64(out, at + batch_heads::FIRST),
        second: numbers::read64(out, at + batch_heads::SECOND),
        refusal: out[at + batch_heads::REFUSAL],
        flag: out[at + batch_heads::FLAG],
    }
}

// The n bytes from `at`; none, where the output has fewer.
pub(crate) fn detail_at(out: &[u8], at: usize, n: usize) -> &[u8] {
    if out.len() < at {
        return &out[..0];
    }
    if out.len() - at < n {
        return &out[..0];
    }
    &out[at..at + n]
}

// The value of a read's detail.
pub(crate) fn value_in(detail: &[u8]) -> &[u8] {
    if detail.len() < model_batch::VALUE_PLACE {
        return &detail[..0];
    }
    let n = numbers::read32(detail, model_batch::LENGTH_PLACE) as usize;
    detail_at(detail, model_batch::VALUE_PLACE, n)
}
