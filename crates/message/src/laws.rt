// What the bytes promise.
// A law is proved only where the contract of a function names it, so each has its own, which does nothing.
ghost use Rattle.message.specs.Laws.{MessageReturns, MessageDecodedOnly, PacketReturns, PacketDecodedOnly, AcknowledgementReturns, AcknowledgementDecodedOnly};

pub fn message_returns()
    ensures { MessageReturns }
{}

pub fn message_decoded_only()
    ensures { MessageDecodedOnly }
{}

pub fn packet_returns()
    ensures { PacketReturns }
{}

pub fn packet_decoded_only()
    ensures { PacketDecodedOnly }
{}

pub fn acknowledgement_returns()
    ensures { AcknowledgementReturns }
{}

pub fn acknowledgement_decoded_only()
    ensures { AcknowledgementDecodedOnly }
{}
