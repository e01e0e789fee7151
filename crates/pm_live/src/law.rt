//! The law of what a peer may ask of a node.

ghost use Rattle.pm_live.specs.Asks.{AsksNode};
ghost use Rattle.pm_live.specs.Endings.{EndingCodesAreAsWorkedOut};
ghost use Rattle.pm_live.specs.Processes.{AsksForProcess};

use crate::named::LiveNode;
use pm_io::Peer;

/// A law: a peer may ask, at each read and at each write, that what it gave and holds is a process of the node. So `live_peer`
/// serves such a peer, and so it is at each moment, whether the call returns or is ended at any byte.
pub fn processes_may_be_asked<W: Peer>()
    ensures { (node : LiveNode) (old : W) →
        AsksForProcess W.left W.held W.becomes W.may_read W.may_write node old →
        AsksNode W.left W.held W.becomes W.may_read W.may_write node old }
{}

/// A law: worked exit codes, of each ending.
pub fn ending_codes_are_as_worked_out()
    ensures { EndingCodesAreAsWorkedOut }
{}
