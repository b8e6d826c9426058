//! S46_PORTPARAMS (RFC 7598, section 4.5).
//!
//! | octets | field |
//! |---|---|
//! | 0 | offset |
//! | 1 | PSID length |
//! | 2 to 3 | PSID, from the left |

ghost use Rattle.std.specs.Prelude.{◌≡◌, ◌+◌, ◌-◌, ◌*◌, ◌^◌, ◌<◌, ◌≤◌, ◌⊎◌, true, [], length, IfOk, IfErr, OnOk, Some};
ghost use Rattle.s46_options.specs.Items.{params_octets, sub_option};
ghost use Rattle.s46_options.specs.Accepted.{sub_fits, is_params};
ghost use Rattle.s46_options.specs.Faults.{params_faults, first};
ghost use Rattle.s46_options.specs.Reading.{ReadsSub};

use crate::padding::zero_octets;
use crate::{OptionFault, Sub};
use byteorder::{BigEndian, ByteOrder};

const OFFSET: usize = 0;

const PSID_LEN: usize = 1;

const PSID: usize = 2;

const LEN: usize = 4;

const MOST_OFFSET: u8 = 15;

const MOST_PSID_LEN: u8 = 16;

/// The port parameters that these octets of the option at a place are.
pub(crate) fn read_params(at: u32, octets: &[u8]) -> Result<Sub, OptionFault>
    requires { at + length octets.now ≤ 65535 }
    ensures sound { OnOk result (params_faults at octets.now ≡ []) }
    ensures option { IfOk result (λ sub. sub_option sub ≡ record { code = 93; octets = octets.now }) }
    ensures reads { IfOk result (ReadsSub (record { code = 93; octets = octets.now })) }
    ensures fits { IfOk result (λ sub. sub_fits sub ≡ true) }
    ensures params { IfOk result (λ sub. is_params sub ≡ true) }
    ensures refused { IfErr result (λ e. first (params_faults at octets.now) ≡ Some e) }
{
    if octets.len() != LEN {
        return Err(OptionFault::BadLength(at + 2));
    }
    let offset = octets[OFFSET];
    let psid_len = octets[PSID_LEN];
    if offset > MOST_OFFSET {
        return Err(OptionFault::BadPrefixLen(at + 4));
    }
    if psid_len > MOST_PSID_LEN {
        return Err(OptionFault::BadPrefixLen(at + 5));
    }
    let bits = u32::from(BigEndian::read_u16(&octets[PSID..]));
    let past = bits % (1 << (16 - psid_len));
    if past > 0 {
        return Err(OptionFault::Padding(at + 6 + zero_octets(2, u128::from(past))));
    }
    Ok(Sub::Params {
        offset,
        psid_len,
        psid: (bits >> (16 - psid_len)) as u16,
    })
}
