// Causes, 9.4.3, table 9.4: what the cause part of a cause element says.
#![tactic(auto)]

ghost use Rattle.std.specs.Prelude.{◌≡◌};
ghost use Rattle.causes.specs.Causes.{cause_of, cause_said, retry_or_unspecific};

use codes::cause;

#[derive(Clone, Copy)]
pub enum Cause {
    IllegalMs,
    ImeiNotAccepted,
    IllegalMe,
    ServiceNotAuthorized,
    ApplicationNotSupported,
    RrConnectionAborted,
    NormalCallClearing,
    NetworkFailure,
    Busy,
    Congestion,
    UserNotOriginator,
    NetworkWantsToMaintainCall,
    ResponseToGetStatus,
    ServiceOptionNotSupported,
    ServiceOptionNotSubscribed,
    ServiceOptionOutOfOrder,
    CallCannotBeIdentified,
    RetryUponNewCell,
    InvalidTransactionIdentifier,
    SemanticallyIncorrect,
    InvalidMandatoryInformation,
    TypeNonExistent,
    TypeNotCompatible,
    ElementNonExistent,
    ProtocolError,
    Unspecific,
}

// The cause of a number.
pub fn cause_of(number: u8) -> Cause
    ensures { result ≡ cause_of number }
{
    match number {
        cause::ILLEGAL_MS => Cause::IllegalMs,
        cause::IMEI_NOT_ACCEPTED => Cause::ImeiNotAccepted,
        cause::ILLEGAL_ME => Cause::IllegalMe,
        cause::SERVICE_NOT_AUTHORIZED => Cause::ServiceNotAuthorized,
        cause::APPLICATION_NOT_SUPPORTED => Cause::ApplicationNotSupported,
        cause::RR_CONNECTION_ABORTED => Cause::RrConnectionAborted,
        cause::NORMAL_CALL_CLEARING => Cause::NormalCallClearing,
        cause::NETWORK_FAILURE => Cause::NetworkFailure,
        cause::BUSY => Cause::Busy,
        cause::CONGESTION => Cause::Congestion,
        cause::USER_NOT_ORIGINATOR => Cause::UserNotOriginator,
        cause::NETWORK_WANTS_TO_MAINTAIN_CALL => Cause::NetworkWantsToMaintainCall,
        cause::RESPONSE_TO_GET_STATUS => Cause::ResponseToGetStatus,
        cause::SERVICE_OPTION_NOT_SUPPORTED => Cause::ServiceOptionNotSupported,
        cause::SERVICE_OPTION_NOT_SUBSCRIBED => Cause::ServiceOptionNotSubscribed,
        cause::SERVICE_OPTION_OUT_OF_ORDER => Cause::ServiceOptionOutOfOrder,
        cause::CALL_CANNOT_BE_IDENTIFIED => Cause::CallCannotBeIdentified,
        cause::INVALID_TRANSACTION_IDENTIFIER => Cause::InvalidTransactionIdentifier,
        cause::SEMANTICALLY_INCORRECT => Cause::SemanticallyIncorrect,
        cause::INVALID_MANDATORY_INFORMATION => Cause::InvalidMandatoryInformation,
        cause::TYPE_NON_EXISTENT => Cause::TypeNonExistent,
        cause::TYPE_NOT_COMPATIBLE => Cause::TypeNotCompatible,
        cause::ELEMENT_NON_EXISTENT => Cause::ElementNonExistent,
        cause::TYPE_NOT_COMPATIBLE_AGAIN => Cause::TypeNotCompatible,
        cause::PROTOCOL_ERROR => Cause::ProtocolError,
        _ => retry_or_unspecific(number),
    }
}

// A cause without a row of its own: 48 to 63, or any other value.
fn retry_or_unspecific(number: u8) -> Cause
    ensures { result ≡ retry_or_unspecific number }
{
    if number < cause::RETRY_FIRST {
        return Cause::Unspecific;
    }
    if cause::RETRY_LAST < number {
        return Cause::Unspecific;
    }
    Cause::RetryUponNewCell
}

// The cause that the first octet of a cause's value says: bit 8 set ends the cause parts; where another part follows, the cause is unspecific.
pub fn cause_said(first: u8) -> Cause
    ensures { result ≡ cause_said first }
{
    if first < 128 {
        return Cause::Unspecific;
    }
    cause_of(first % 128)
}
