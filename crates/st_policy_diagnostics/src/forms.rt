//! What messages call the parts of policies that have the emulation's word.

use st_emulation::Emulation;

/// A policy's header.
pub fn header_form(emulation: Emulation) -> &'static str {
    match emulation {
        Emulation::Native => "a header 'Policy: BINARY, Emulation: native'",
        Emulation::Linux => "a header 'Policy: BINARY, Emulation: linux'",
    }
}

/// A filter.
pub fn filter_form(emulation: Emulation) -> &'static str {
    match emulation {
        Emulation::Native => "a filter 'native-CALL: ...'",
        Emulation::Linux => "a filter 'linux-CALL: ...'",
    }
}

/// What may begin a row of a policy file after a header.
pub fn filter_or_header(emulation: Emulation) -> &'static str {
    match emulation {
        Emulation::Native => {
            "a filter 'native-CALL: ...' or a header 'Policy: BINARY, Emulation: native'"
        }
        Emulation::Linux => {
            "a filter 'linux-CALL: ...' or a header 'Policy: BINARY, Emulation: linux'"
        }
    }
}

/// What may begin a row of a policy in a script.
pub fn filter_or_end(emulation: Emulation) -> &'static str {
    match emulation {
        Emulation::Native => "a filter 'native-CALL: ...' or 'end'",
        Emulation::Linux => "a filter 'linux-CALL: ...' or 'end'",
    }
}

/// A filter's name.
pub fn name_form(emulation: Emulation) -> &'static str {
    match emulation {
        Emulation::Native => "'native-' and letters, digits or '_'",
        Emulation::Linux => "'linux-' and letters, digits or '_'",
    }
}

/// The emulation's word.
pub fn word_form(emulation: Emulation) -> &'static str {
    match emulation {
        Emulation::Native => "'native'",
        Emulation::Linux => "'linux'",
    }
}

/// The emulation's word, where another word stands.
pub fn only_word(emulation: Emulation) -> &'static str {
    match emulation {
        Emulation::Native => "'native'; --linux reads policies of Linux",
        Emulation::Linux => "'linux', the emulation that --linux asks for",
    }
}
