//! Clusters that are driven by scripts of acts, by acts in several orders, by drawn ones, and by what they have to refuse.

/// The members of an end: node, power in watts and number of the bid of each.
macro_rules! members {
    ($(($node:expr, $power:expr, $number:expr)),* $(,)?) => {
        &[$(pm_plan::MemberLine { node: $node, power: $power, number: $number }),*]
    };
}

/// The limited concentrators of an end: node, step and total of each.
macro_rules! limited {
    ($(($node:expr, $step:expr, $total:expr)),* $(,)?) => {
        &[$(pm_plan::LimitedLine { node: $node, step: $step, total: $total }),*]
    };
}

mod drawn;
mod files;
mod hand;
mod orders;
mod refused;
mod rows;
