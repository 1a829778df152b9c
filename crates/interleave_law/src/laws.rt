//! The law of interleaving.
ghost use Rattle.interleave_law.specs.Laws.{AnyOrderIsOneHistory};

/// Whatever events happen to several clients' lines, in whatever order, what comes is one history of a scheduler of one
/// thread, with each client's lines in their order, each once.
pub fn any_order_is_one_history()
    ensures { AnyOrderIsOneHistory }
{}
