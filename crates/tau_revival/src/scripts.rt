//! The revived script.
ghost use Rattle.std.specs.Prelude.{◌≡◌, ◌+◌, ◌≤◌, [], ◌∷◌, ◌++◌, length, IfOk, OnOk};
ghost use Rattle.tau_value.specs.declared.limits.TheConstants.{ENTRY_LIMIT};
ghost use Rattle.tau_revival.specs.Revival.{block_place, failing_nodes, revived};

use std::alloc::{AllocError, Global};
use tau_tree::{Entry, Failure, Script};

/// The script in which each node fails after so many steps, the cursor being at `entry`.
pub fn revived_script(
    alloc: Global,
    script: &Script,
    nodes: u32,
    steps: u32,
    entry: u32,
) -> Result<Script, AllocError>
    requires { length script.now + nodes ≤ ENTRY_LIMIT }
    ensures { IfOk result (λ s. s ≡ revived script.now nodes steps entry) }
{
    let place = place_of(script, steps, entry);
    let items = script.items();
    let mut revived = Script::new(alloc);
    push_all(&mut revived, &items[..place])?;
    push_failing(&mut revived, nodes, steps)?;
    push_all(&mut revived, &items[place..])?;
    Ok(revived)
}

/// The place of the new entries: behind the entry at the cursor where it is ripe, before it where it isn't, and at the end
/// where there is none.
fn place_of(script: &Script, steps: u32, entry: u32) -> usize
    requires { length script.now ≤ ENTRY_LIMIT }
    ensures place { result ≡ block_place script.now steps entry }
    ensures within { result ≤ length script.now }
{
    match script.item(entry as usize) {
        Some(item) => {
            if item.at <= steps {
                entry as usize + 1
            } else {
                entry as usize
            }
        }
        None => script.len(),
    }
}

/// Adds entries at the end.
fn push_all(script: &mut Script, items: &[Entry]) -> Result<(), AllocError>
    ensures { OnOk result (script.new ≡ script.old ++ items.now) }
{
    for item in items {
        script.add(*item)?;
    }
    Ok(())
}

/// Adds an entry for each node, by which it fails after `at` steps.
fn push_failing(script: &mut Script, nodes: u32, at: u32) -> Result<(), AllocError>
    ensures { OnOk result (script.new ≡ script.old ++ failing_nodes at nodes) }
{
    for node in 0..nodes {
        script.add(Entry {
            at,
            failure: Failure::Fail { node },
        })?;
    }
    Ok(())
}
