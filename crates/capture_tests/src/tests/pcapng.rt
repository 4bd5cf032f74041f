//! Tests of captures in the pcapng format. There is nothing here but tests, and nothing stands on this crate.
//!
//! Read first: `classic_tests`, texts that are read, and their classic captures. `direction_tests` has packets that are told as
//! outbound, `fault_tests` texts with a fault, and `input_tests` texts that are read piece by piece, 1, 7 and 4,096 octets at a
//! time.
//!
//! What is expected comes from the draft (draft-ietf-opsawg-pcapng), and from Wireshark's tools: `editcap`, `mergecap`,
//! `tshark`. `texts` has the captures octet for octet, and says of each which of these tools wrote it, or that it is put
//! together from the draft.
mod classic_tests;
mod direction_tests;
mod fault_tests;
mod input_tests;
mod texts;
