//! What is wrong with a name, by what stands under it.

ghost use Rattle.std.specs.Prelude.{◌≡◌, ◌<◌, suc, is_some, if◌then◌else◌, OnOk};
ghost use Rattle.swift_types.specs.declared.limits.TheConstants.{BYTES};
ghost use Rattle.script_names.specs.declared.error.NameErrorKind.TheVariants.{Unknown};
ghost use Rattle.script_names.specs.Rules.{at_name, number_fault, group_fault, root_fault, task_fault, cancel_fault, new_fault, where_so};
ghost use Rattle.script_names.specs.Finds.{Finds};

use crate::error::{CheckError, NameErrorKind};
use crate::scope::NameKind;

/// The error at a name before which `at` names stand, if something is wrong with it. Else it is one of those that stand before
/// what follows it.
pub fn at_name(at: &mut u32, fault: Option<NameErrorKind>) -> Result<(), CheckError>
    requires { at.old < BYTES }
    ensures finds { Finds result (at_name at.old fault) }
    ensures after { OnOk result (at.new ≡ suc at.old) }
{
    match fault {
        Some(kind) => Err(CheckError::at(kind, *at)),
        None => {
            *at += 1;
            Ok(())
        }
    }
}

/// A name that is read or set is a field or a number.
pub fn number_fault(meaning: Option<NameKind>) -> Option<NameErrorKind>
    ensures { result ≡ number_fault meaning }
{
    match meaning {
        None => Some(NameErrorKind::Unknown),
        Some(NameKind::Field | NameKind::Number) => None,
        Some(NameKind::Task | NameKind::Group) => Some(NameErrorKind::Confused),
    }
}

/// A name after `next` or `add` is a group.
pub fn group_fault(meaning: Option<NameKind>) -> Option<NameErrorKind>
    ensures { result ≡ group_fault meaning }
{
    match meaning {
        None => Some(NameErrorKind::Unknown),
        Some(NameKind::Field | NameKind::Number | NameKind::Task) => Some(NameErrorKind::Confused),
        Some(NameKind::Group) => None,
    }
}

// A name that is no task there is a root, whatever else stands under it.
fn root_fault(is_root: bool, meaning: Option<NameKind>) -> Option<NameErrorKind>
    ensures { result ≡ root_fault is_root meaning }
{
    match meaning {
        _ if is_root => None,
        None => Some(NameErrorKind::Unknown),
        Some(_) => Some(NameErrorKind::Confused),
    }
}

/// A name after `task` is a task variable, or else a root.
pub fn task_fault(is_root: bool, meaning: Option<NameKind>) -> Option<NameErrorKind>
    ensures { result ≡ task_fault is_root meaning }
{
    match meaning {
        Some(NameKind::Task) => None,
        _ => root_fault(is_root, meaning),
    }
}

/// A name after `cancel` is a task variable or a group, or else a root.
pub fn cancel_fault(is_root: bool, meaning: Option<NameKind>) -> Option<NameErrorKind>
    ensures { result ≡ cancel_fault is_root meaning }
{
    match meaning {
        Some(NameKind::Task | NameKind::Group) => None,
        _ => root_fault(is_root, meaning),
    }
}

/// A new name stands neither as a field nor as anything else.
pub fn new_fault(meaning: Option<NameKind>) -> Option<NameErrorKind>
    ensures { result ≡ new_fault meaning }
{
    match meaning {
        None => None,
        Some(_) => Some(NameErrorKind::Twice),
    }
}

/// This fault, where the test holds.
pub fn where_so(test: bool, kind: NameErrorKind) -> Option<NameErrorKind>
    ensures { result ≡ where_so test kind }
{
    if test { Some(kind) } else { None }
}

/// A name that must be declared is found among those that are.
pub fn declared_fault(place: Option<usize>) -> Option<NameErrorKind>
    ensures { result ≡ (if is_some place then None else Some Unknown) }
{
    match place {
        Some(_) => None,
        None => Some(NameErrorKind::Unknown),
    }
}
