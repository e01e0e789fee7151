//! The reader of cluster files.
//!
//! A cluster file is one JSON value: the market basis, the nodes of the tree with their kinds, and the phases with
//! their events. `docs/CLUSTER_FILE.md` describes it. [`read_scene`] gives the plan of a file, or the first refusal that
//! three passes meet:
//!
//! 1. the shape (`shape`): each object has the members of its table and no others, each of its type, and the basis is
//!    one;
//! 2. the tree (`tree`): names and parents;
//! 3. the plan (`pm_plan`): limits, starts and events.
//!
//! The definitions in `specs/` are in the same layers, the whole in `Scene`. The members of each object are in one table of
//! the code (`kinds` for the nodes, `rows` for the others). They are also in one of the definitions (`Kinds`, `Rows`). The
//! same check goes by both. `kinds` and `Kinds` have all that tells one kind of node from another.
#![tactic(auto)]

mod forms;
mod kinds;
mod law;
mod members;
mod rows;
mod scene;
mod shape;
mod tree;
mod values;

pub use law::plans_of_files_keep_the_limits;
/// Why there is no plan of a cluster file: the causes are those of its parts.
pub use pm_plan::PlanFault as SceneFault;
pub use scene::read_scene;
