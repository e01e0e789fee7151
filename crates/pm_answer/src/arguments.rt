//! Reads the command that the arguments name.

ghost use Rattle.std.specs.Prelude.{◌≡◌, ◌<◌, map, string_bytes};
ghost use Rattle.std.specs.List.{list_all};
ghost use Rattle.std.specs.Char.{is_ascii_digit};
ghost use Rattle.pm_answer.specs.Arguments.{command, single_of, demo_of, is_number, number_within, value_up_to};

/// The text that is asked for of an input. The input is a cluster file. For `Ask` it is an envelope of one with targets
/// behind it, and for `Check` one with a trace behind it.
#[derive(Clone, Copy)]
pub enum FileCommand {
    /// The report of its phases.
    Run,
    /// The report, and the moves of the run.
    Trace,
    /// Whether a trace is one of a legal run of it.
    Check,
    /// What the devices and the grid pay over the ticks of its run.
    Bill,
    /// At which price the cluster would take or deliver so much more, for each of a list of targets.
    Ask,
    /// The report of its phases, by a run over links without a lock.
    Free,
}

/// What the program is asked to do.
#[derive(Clone, Copy)]
pub enum Command {
    /// Run a cluster file and write the text that is asked for.
    File(FileCommand),
    /// Sum up the demo cluster of so many devices, 1 to 200, made by this number.
    Demo { size: u32, number: u32 },
    /// Serve the auctioneer over a stream of bids.
    Serve,
}

/// The command that the arguments are, if they are one. It is `run`, `trace`, `check`, `bill`, `serve`, `ask` or `free`
/// alone, or `demo SIZE NUMBER`. SIZE is in 1..=200 and NUMBER in 0..=4294967295, both in ASCII digits without sign and
/// without a leading zero.
pub fn command_of(arguments: &[String]) -> Option<Command>
    ensures { result ≡ command (map string_bytes arguments.now) }
{
    match arguments {
        [argument] => single_of(argument.as_str()),
        [argument, size, number] if argument.as_str() == "demo" => demo_of(
            size.as_str(),
            number.as_str(),
        ),
        _ => None,
    }
}

/// The command of this argument alone, if it is one.
fn single_of(argument: &str) -> Option<Command>
    ensures { result ≡ single_of argument.now }
{
    let command = match argument {
        "run" => Command::File(FileCommand::Run),
        "trace" => Command::File(FileCommand::Trace),
        "check" => Command::File(FileCommand::Check),
        "bill" => Command::File(FileCommand::Bill),
        "serve" => Command::Serve,
        "ask" => Command::File(FileCommand::Ask),
        "free" => Command::File(FileCommand::Free),
        _ => return None,
    };
    Some(command)
}

/// The demo of these two arguments, if they are numbers within its limits.
fn demo_of(size: &str, number: &str) -> Option<Command>
    ensures { result ≡ demo_of size.now number.now }
{
    let size = number_within(1, 200, size.as_bytes())?;
    let number = number_within(0, u32::MAX, number.as_bytes())?;
    Some(Command::Demo { size, number })
}

/// The number that an argument writes, if it is one within these limits.
fn number_within(low: u32, high: u32, argument: &[u8]) -> Option<u32>
    ensures { result ≡ number_within low high argument.now }
{
    if !is_number(argument) {
        return None;
    }
    let value = value_up_to(high, argument)?;
    if value < low { None } else { Some(value) }
}

/// Whether these bytes are ASCII digits without a leading zero; 0 itself is one digit.
fn is_number(argument: &[u8]) -> bool
    ensures { result ≡ is_number argument.now }
{
    match argument {
        [] => false,
        [digit] => digit.is_ascii_digit(),
        [first, more @ ..] => first.is_ascii_digit() && *first != b'0' && are_digits(more),
    }
}

fn are_digits(bytes: &[u8]) -> bool
    ensures { result ≡ list_all is_ascii_digit bytes.now }
{
    bytes.iter().all(|byte| byte.is_ascii_digit())
}

/// The number that decimal digits write, if it is at most this one.
fn value_up_to(high: u32, digits: &[u8]) -> Option<u32>
    ensures { result ≡ value_up_to high digits.now }
{
    let mut value = 0;
    for digit in digits {
        value = value * 10 + u64::from(digit.saturating_sub(b'0'));
        if value > u64::from(high) {
            return None;
        }
    }
    Some(value as u32)
}
