//! A law of the definitions, the contract of a function that does nothing.
ghost use Rattle.sorted_systems.specs.Laws.{GreatestLabellingsAgree};

use iface::Iface;

/// Two greatest stable labellings of one system refine each other, so a system has at most one
/// greatest partition.
pub fn greatest_labellings_agree<I: Iface>(iface: &I)
    ensures { GreatestLabellingsAgree (I.agree iface.now) }
{}
