//! Writes the lines of a bill.

ghost use Rattle.std.specs.Prelude.{◌≡◌, ◌+◌, ◌≤◌, ◌++◌, length, OnOk, string_bytes};
ghost use Rattle.pm_tree.specs.Entries.{leaves_of};
ghost use Rattle.pm_bill.specs.Text.{account_line, account_lines, grid_line, ticks_line, devices};

use crate::account::Account;
use pm_plan::Plan;
use pm_tree::NodeId;
use std::alloc::AllocError;

/// Writes the line of a device's account.
fn push_account(
    text: &mut String,
    plan: &Plan,
    device: NodeId,
    account: &Account,
) -> Result<(), AllocError>
    requires { device.0 ≤ length plan.now.nodes }
    ensures { OnOk result (string_bytes text.new ≡ string_bytes text.old
        ++ account_line plan.now device.0 account.now) }
{
    let name = plan.tree().name(device);
    let amount = account.amount;
    let taken = account.taken;
    let given = account.given;
    writeln!(
        text,
        "account {name} amount {amount} taken {taken} given {given}"
    )
}

/// Writes the lines of the devices' accounts, from whether node 1, 2, .. is a device and the accounts of node 0, 1, 2, ...
pub(crate) fn push_accounts(
    text: &mut String,
    plan: &Plan,
    leaves: &[bool],
    accounts: &[Account],
) -> Result<(), AllocError>
    requires leaves { leaves.now ≡ leaves_of plan.now.entries }
    requires one_each { length accounts.now ≡ length leaves.now + 1 }
    ensures { OnOk result (string_bytes text.new ≡ string_bytes text.old
        ++ account_lines plan.now accounts.now (devices plan.now)) }
{
    for before in 0..plan.tree().len() {
        let place = before as usize;
        if leaves[place] {
            push_account(text, plan, NodeId(before + 1), &accounts[place + 1])?;
        }
    }
    Ok(())
}

/// Writes the line of the grid's account.
pub(crate) fn push_grid(text: &mut String, grid: &Account) -> Result<(), AllocError>
    ensures { OnOk result (string_bytes text.new ≡ string_bytes text.old ++ grid_line grid.now) }
{
    let amount = grid.amount;
    let taken = grid.taken;
    let given = grid.given;
    writeln!(text, "grid amount {amount} taken {taken} given {given}")
}

/// Writes the line of the ticks and their minutes.
pub(crate) fn push_ticks(text: &mut String, ticks: u32, minutes: i64) -> Result<(), AllocError>
    ensures { OnOk result (string_bytes text.new ≡ string_bytes text.old
        ++ ticks_line ticks minutes) }
{
    writeln!(text, "ticks {ticks} minutes {minutes}")
}
