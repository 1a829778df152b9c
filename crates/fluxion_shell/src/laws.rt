//! Laws of answers to calls, each the contract of a function that does nothing.
ghost use Rattle.fluxion_shell.specs.Laws.{InOrderIsAnswered, OneClientKeepsInputOrder, OneLoadHasOneSummary};
ghost use Rattle.fluxion_shell.specs.Laws.{OneOrderHasOneOutput, OneClientHasOneOutput};

/// Where all that a call reads is told and in order and nothing failed, all was answered, or memory was wanting.
pub fn in_order_is_answered()
    ensures { InOrderIsAnswered }
{}

/// With one client the lines are answered in the order of the input.
pub fn one_client_keeps_input_order()
    ensures { OneClientKeepsInputOrder }
{}

/// The counts of a load are a function of the number of its commands.
pub fn one_load_has_one_summary()
    ensures { OneLoadHasOneSummary }
{}

/// Two outputs for one call, file and input that answer the lines in the same order are equal.
pub fn one_order_has_one_output()
    ensures { OneOrderHasOneOutput }
{}

/// With one client an input has one output.
pub fn one_client_has_one_output()
    ensures { OneClientHasOneOutput }
{}
