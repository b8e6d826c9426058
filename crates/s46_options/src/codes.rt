//! The codes and the fixed lengths of the options (RFC 7598).

/// OPTION_S46_RULE.
pub(crate) const RULE: u16 = 89;
/// OPTION_S46_DMR.
pub(crate) const DMR: u16 = 91;
/// OPTION_S46_PORTPARAMS.
pub(crate) const PARAMS: u16 = 93;
/// OPTION_S46_CONT_MAPT.
pub(crate) const MAPT: u16 = 95;
/// The octets of an option's code and length.
pub(crate) const HEAD_LEN: usize = 4;
/// The most octets that an option may hold.
pub(crate) const MOST_OCTETS: usize = 65_535;
