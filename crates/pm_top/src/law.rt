//! The law that each text due has its cause, by its status.

ghost use Rattle.std.specs.Prelude.{◌≡◌, ◌≢◌, ℕ, true, List, Option, Some, None};
ghost use Rattle.pm_gen.specs.Demo.{is_size};
ghost use Rattle.pm_headline.specs.Promises.{TellsTheMarket, RefutesFile};
ghost use Rattle.pm_top.specs.Top.{usage_line, IsDue};
ghost use Rattle.pm_top.specs.Causes.{WasTooLong, WasRefused, WasServed};

use pm_answer::{Command, Status};

/// A law: a text that is due has its cause, by its status. With Done it tells the market, if a demo has a size that it may
/// have. With Invalid it refutes a trace. With Usage the arguments are no command. With TooLong there were too many bytes. With
/// Refused the input has nothing that is asked for, or the stream has a fault. No other status has a text.
pub fn texts_have_causes()
    ensures done { (command : Option Command) (old new : Option (List ℕ)) (text : List ℕ) →
        ((size number : ℕ) → command ≡ Some (Command.Demo size number) → is_size size ≡ true) →
        IsDue command old new Status.Done text → TellsTheMarket command old new text }
    ensures invalid { (command : Option Command) (old new : Option (List ℕ)) (text : List ℕ) →
        IsDue command old new Status.Invalid text → RefutesFile command old new text }
    ensures usage { (command : Option Command) (old new : Option (List ℕ)) (text : List ℕ) →
        IsDue command old new Status.Usage text → (command ≡ None) × (text ≡ usage_line) }
    ensures too_long { (command : Option Command) (input : List ℕ) (new : Option (List ℕ))
        (text : List ℕ) →
        IsDue command (Some input) new Status.TooLong text → WasTooLong command input text }
    ensures refused { (command : Option Command) (old new : Option (List ℕ)) (text : List ℕ) →
        IsDue command old new Status.Refused text → WasRefused command old new text }
    ensures served { (old new : Option (List ℕ)) (text : List ℕ) →
        IsDue (Some Command.Serve) old new Status.Done text → WasServed old new text }
    ensures no_other { (command : Option Command) (old new : Option (List ℕ)) (status : Status)
        (text : List ℕ) →
        IsDue command old new status text → (status ≢ Status.ReadFault)
        × (status ≢ Status.WriteFault) × (status ≢ Status.NoMemory) }
{}
