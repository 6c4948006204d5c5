//! What the environment variables ask for.

use edge_real::DEFAULT_RATE;
use std::env;
use std::env::VarError;
use std::rt::Env;

/// The most seconds without a datagram that can be asked for: a day.
const MOST_IDLE: u32 = 86_400;

/// What the environment variables ask for.
#[derive(Clone, Copy)]
pub struct Settings {
    /// How many bytes a second are sent over UDP, with no limit at 0: `FCAST_RATE`.
    pub rate: u64,
    /// How many seconds without a datagram are the end of those that come over UDP, where anything
    /// is: `FCAST_IDLE`.
    pub idle: Option<u32>,
}

/// What is wrong with a variable.
#[derive(Clone, Copy)]
pub enum SettingFault {
    /// `FCAST_RATE` is no number of bytes a second below 2^64.
    Rate,
    /// `FCAST_IDLE` is no number of seconds from one to a day.
    Idle,
    /// There is no memory to read them.
    Memory,
}

/// What the environment variables ask for, or the first fault.
pub fn asked_settings(rt: &(impl Env + AllocGlobal)) -> Result<Settings, SettingFault> {
    let rate = asked_number(rt, "FCAST_RATE", SettingFault::Rate)?.unwrap_or(DEFAULT_RATE);
    let idle = match asked_number(rt, "FCAST_IDLE", SettingFault::Idle)? {
        Some(number) => Some(idle_of(number).ok_or(SettingFault::Idle)?),
        None => None,
    };
    Ok(Settings { rate, idle })
}

/// The number that a variable holds, where it is set; or this fault, where it is no number.
fn asked_number(
    rt: &(impl Env + AllocGlobal),
    name: &str,
    fault: SettingFault,
) -> Result<Option<u64>, SettingFault> {
    match env::var(rt, name) {
        Ok(text) => Ok(Some(number_of(text.as_str()).ok_or(fault)?)),
        Err(VarError::NotPresent) => Ok(None),
        Err(VarError::NotUnicode) => Err(fault),
        Err(VarError::OutOfMemory) => Err(SettingFault::Memory),
    }
}

/// The number that a text of digits alone writes, below 2^64.
fn number_of(text: &str) -> Option<u64> {
    if text.starts_with('+') {
        return None;
    }
    text.parse().ok()
}

/// The seconds of this number, from one to a day.
fn idle_of(number: u64) -> Option<u32> {
    match u32::try_from(number) {
        Ok(seconds) if 1 <= seconds && seconds <= MOST_IDLE => Some(seconds),
        _ => None,
    }
}
