//! Code that is compiled for one block size.

/// Calls a function compiled for a block size, as `call::<8>(..)`, if the size is one of those that
/// are listed. For any other size it evaluates `$other`.
macro_rules! by_block_size {
    (
        $size:expr,
        [$($known:literal)*],
        $call:ident $arguments:tt,
        $other:expr
    ) => {
        match $size {
            $($known => $call::<$known> $arguments,)*
            _ => $other,
        }
    };
}

pub(crate) use by_block_size;
