//! The whole program over memory, table by table.

use crate::running::OverMemory;
use hs_rows::{list_rows, rows};
use hs_settings::RunsRow;
use std::test::Fail;

/// What is drawn from a seed and scanned: rows as in `hs_rows`.
const SOAKED: &[u8] = b"run <hs_tool soak 1 10>
= 0 <expressions 10;bytes 640;region 119;even 3 627;cut 3 627;>
out 1 = 3 <> <fault write;>
";

#[test]
fn commands_answer_and_tell_what_failed(rt: HostRuntime) -> Result<(), Fail> {
    OverMemory::judge(rt.alloc(), rows::COMMANDS)
}

#[test]
fn scripts_answer_the_same_in_any_pieces(rt: HostRuntime) -> Result<(), Fail> {
    OverMemory::judge(rt.alloc(), rows::SCRIPTS)
}

#[test]
fn writes_every_end_once(rt: HostRuntime) -> Result<(), Fail> {
    OverMemory::judge(rt.alloc(), list_rows::MATCHED)
}

#[test]
fn refuses_by_the_first_reason(rt: HostRuntime) -> Result<(), Fail> {
    OverMemory::judge(rt.alloc(), list_rows::REFUSED)
}

#[test]
fn says_where_bytes_stop_to_be_a_database(rt: HostRuntime) -> Result<(), Fail> {
    OverMemory::judge(rt.alloc(), list_rows::BROKEN_FILES)
}

#[test]
fn draws_and_scans_in_two_ways(rt: HostRuntime) -> Result<(), Fail> {
    OverMemory::judge(rt.alloc(), SOAKED)
}
