//! Laws of loads, each the contract of a function that does nothing.
ghost use Rattle.load_script.specs.Laws.{OneClientLoads, LoadsPassNoLimit};

/// The input of a load is one client's.
pub fn one_client_loads()
    ensures { OneClientLoads }
{}

/// No line of a load is past a limit of loads.
pub fn loads_pass_no_limit()
    ensures { LoadsPassNoLimit }
{}
