// Addresses: which are initiators', and what kind of exchange a destination asks for.
#![tactic(auto)]

ghost use Rattle.std.specs.Prelude.{◌≡◌};
ghost use Rattle.addresses.specs.Address.{initiator_nibble, initiator, reserved, kind_of};

use escapes::{ESC, SYN};

// The destination of a broadcast.
const EVERYONE: u8 = 0xFE;

// The kind of an exchange, which its destination decides.
#[derive(Clone, Copy, PartialEq, Eq)]
pub enum ExchangeKind {
    Broadcast,
    InitiatorInitiator,
    InitiatorTarget,
}

#[tactic(auto, unfolding(crate::specs::Address::initiator_nibble))]
fn initiator_nibble(n: u8) -> bool
    ensures { result ≡ initiator_nibble n }
{
    matches!(n, 0x0 | 0x1 | 0x3 | 0x7 | 0xF)
}

// Whether this is an initiator's address: there are 25 of them, FF included.
#[tactic(auto, unfolding(crate::specs::Address::initiator))]
pub fn is_initiator(address: u8) -> bool
    ensures { result ≡ initiator address }
{
    initiator_nibble(address / 16) && initiator_nibble(address % 16)
}

// Whether this address is A9 or AA, which no destination may be.
#[tactic(auto, unfolding(crate::specs::Address::reserved))]
pub fn is_reserved(address: u8) -> bool
    ensures { result ≡ reserved address }
{
    address == ESC || address == SYN
}

// The kind of an exchange with this destination.
pub fn kind(destination: u8) -> ExchangeKind
    ensures { result ≡ kind_of destination }
{
    if destination == EVERYONE {
        return ExchangeKind::Broadcast;
    }
    if is_initiator(destination) {
        ExchangeKind::InitiatorInitiator
    } else {
        ExchangeKind::InitiatorTarget
    }
}
