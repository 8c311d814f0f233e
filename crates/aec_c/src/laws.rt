//! Laws of the calls. Their functions do nothing: what each one's contract says is proved.

ghost use Rattle.aec_c.specs.Coders.{TakenBytesJoin};

/// The bytes that are taken of a coder piece by piece are, in order, those of the whole stream.
pub fn taken_bytes_join()
    ensures { TakenBytesJoin }
{}
