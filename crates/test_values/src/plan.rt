//! The test that the types of plans may be shared by threads.

use crate::shared::may_be_shared;
use pm_plan::{
    EventSpec, LimitedLine, MemberLine, NodeSpec, PhaseEnd, PhaseSpec, Place, Plan, PlanFault,
    Planned, Refusal, StateSpec,
};

/// Every public type may be sent to threads and shared by them: it is proved here.
#[test]
fn each_type_may_be_shared() {
    may_be_shared::<Plan>();
    may_be_shared::<PhaseEnd>();
    may_be_shared::<(MemberLine, LimitedLine)>();
    may_be_shared::<(Place, Refusal, PlanFault)>();
    may_be_shared::<(StateSpec, NodeSpec, EventSpec, PhaseSpec)>();
    may_be_shared::<Planned>();
}
