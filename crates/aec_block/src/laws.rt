//! Laws of coded data sets: the contract of each function is a law, and its body is empty.

ghost use Rattle.aec_block.specs.Laws.{WhatIsSpelledIsRead, WhatIsReadIsSpelled, NothingIsReadWhereNoneBegins, NoSetIsAPrefix, OneSetStands, NoOptionIsShorter};

/// A coded data set is read back from its bits, whatever follows them.
pub fn what_is_spelled_is_read()
    ensures { WhatIsSpelledIsRead }
{}

/// What is read has the shape of a coded data set, and its bits are those that were taken.
pub fn what_is_read_is_spelled()
    ensures { WhatIsReadIsSpelled }
{}

/// Reading takes nothing exactly if no coded data set begins the bits.
pub fn nothing_is_read_where_none_begins()
    ensures { NothingIsReadWhereNoneBegins }
{}

/// No coded data set is a prefix of another, where both are of reference blocks or neither is.
pub fn no_set_is_a_prefix()
    ensures { NoSetIsAPrefix }
{}

/// At most one coded data set of a reference block, and at most one of another, begins at a
/// position.
pub fn one_set_stands()
    ensures { OneSetStands }
{}

/// No coded data set of a block by a single option is shorter than the block's shortest spelling,
/// whatever the first member of a reference pair is.
pub fn no_option_is_shorter()
    ensures { NoOptionIsShorter }
{}
