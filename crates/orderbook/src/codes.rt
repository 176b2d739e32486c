// The case of a wire code; `as` gives the code of a case.
ghost use Rattle.std.specs.Prelude.{◌≡◌, ok_or};
ghost use Rattle.orderbook.specs.Codes.{side_of, tif_of, phase_of, reject_reason_of, cancel_reason_of};

use crate::{CancelReason, Phase, RejectReason, Side, TimeInForce};

// A code that is none of its enum's.
#[derive(Clone, Copy, Debug, PartialEq, Eq)]
pub struct UnknownCode(pub u8);

impl TryFrom<u8> for Side {
    type Error = UnknownCode;

    ghost try_from_gives = { λ code r. r ≡ ok_or (side_of code) (record { 0 = code }) };

    fn try_from(code: u8) -> Result<Self, UnknownCode> {
        match code {
            0 => Ok(Side::Buy),
            1 => Ok(Side::Sell),
            _ => Err(UnknownCode(code)),
        }
    }
}

impl TryFrom<u8> for TimeInForce {
    type Error = UnknownCode;

    ghost try_from_gives = { λ code r. r ≡ ok_or (tif_of code) (record { 0 = code }) };

    fn try_from(code: u8) -> Result<Self, UnknownCode> {
        match code {
            0 => Ok(TimeInForce::Gtc),
            1 => Ok(TimeInForce::Ioc),
            2 => Ok(TimeInForce::Fok),
            3 => Ok(TimeInForce::PostOnly),
            _ => Err(UnknownCode(code)),
        }
    }
}

impl TryFrom<u8> for Phase {
    type Error = UnknownCode;

    ghost try_from_gives = { λ code r. r ≡ ok_or (phase_of code) (record { 0 = code }) };

    fn try_from(code: u8) -> Result<Self, UnknownCode> {
        match code {
            0 => Ok(Phase::Continuous),
            1 => Ok(Phase::Auction),
            2 => Ok(Phase::Halted),
            3 => Ok(Phase::Closed),
            _ => Err(UnknownCode(code)),
        }
    }
}

impl TryFrom<u8> for RejectReason {
    type Error = UnknownCode;

    ghost try_from_gives = { λ code r. r ≡ ok_or (reject_reason_of code) (record { 0 = code }) };

    fn try_from(code: u8) -> Result<Self, UnknownCode> {
        match code {
            1 => Ok(RejectReason::InvalidQuantity),
            2 => Ok(RejectReason::PriceOutOfRange),
            3 => Ok(RejectReason::PriceOutsideProtection),
            4 => Ok(RejectReason::DuplicateOrderId),
            5 => Ok(RejectReason::UnknownOrder),
            6 => Ok(RejectReason::BookFull),
            7 => Ok(RejectReason::InvalidOwner),
            8 => Ok(RejectReason::PostOnlyWouldCross),
            9 => Ok(RejectReason::InvalidDisplay),
            10 => Ok(RejectReason::PriceOutsideBand),
            11 => Ok(RejectReason::StopWouldTrigger),
            12 => Ok(RejectReason::PendingStop),
            13 => Ok(RejectReason::AuctionCall),
            14 => Ok(RejectReason::TradingHalted),
            15 => Ok(RejectReason::MarketClosed),
            _ => Err(UnknownCode(code)),
        }
    }
}

impl TryFrom<u8> for CancelReason {
    type Error = UnknownCode;

    ghost try_from_gives = { λ code r. r ≡ ok_or (cancel_reason_of code) (record { 0 = code }) };

    fn try_from(code: u8) -> Result<Self, UnknownCode> {
        match code {
            1 => Ok(CancelReason::Requested),
            2 => Ok(CancelReason::NoLiquidity),
            3 => Ok(CancelReason::PriceProtection),
            4 => Ok(CancelReason::SelfTrade),
            5 => Ok(CancelReason::MassCancel),
            6 => Ok(CancelReason::ImmediateOrCancel),
            7 => Ok(CancelReason::FillOrKill),
            8 => Ok(CancelReason::PriceBand),
            9 => Ok(CancelReason::TradingPhase),
            _ => Err(UnknownCode(code)),
        }
    }
}
