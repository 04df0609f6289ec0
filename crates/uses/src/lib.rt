//! Callers of the library, as its readers would write them: each with a contract in the words of
//! the definitions, and no proof file.
#![tactic(auto, using(rfc3339::specs::Callers::callers))]

pub mod agendas;
pub mod any_moments;
pub mod audit;
pub mod batches;
pub mod billing;
pub mod columns;
pub mod constants;
pub mod daily;
pub mod date_texts;
pub mod days;
pub mod exchange;
pub mod expiry;
pub mod fronts;
pub mod invoices;
pub mod leases;
pub mod log;
pub mod meeting;
pub mod midnight;
pub mod milliseconds;
pub mod moments;
pub mod months;
pub mod nights;
pub mod offsets;
pub mod periods;
pub mod programs;
pub mod replays;
pub mod reports;
pub mod retry;
pub mod seen;
pub mod shares;
pub mod shown;
pub mod timeouts;
pub mod tokens;
pub mod values;
pub mod wall_texts;
pub mod wholes;
pub mod windows;
pub mod words;
