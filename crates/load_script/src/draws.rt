//! The numbers that the commands of a load are made of.
ghost use Rattle.std.specs.Prelude.{◌≡◌, ◌+◌, ◌*◌, ◌%◌, ◌<◌, ◌≤◌};
ghost use Rattle.load_script.specs.Draws.{seconds_on};

/// The next number behind this one.
pub(crate) fn next_drawn(number: u64) -> u64
    requires { number < 2147483648 }
    ensures value { result ≡ (1103515245 * number + 12345) % 2147483648 }
    ensures small { result < 2147483648 }
{
    (1_103_515_245 * number + 12_345) % 2_147_483_648
}

/// By how many seconds a command of this row and extent moves the present moment on.
pub(crate) fn seconds_on(row: u64, extent: u64) -> u64
    ensures value { result ≡ seconds_on row extent }
    ensures few { result < 120 }
{
    if row == 7 { extent % 120 } else { 0 }
}
