//! Tests of what stands in front of a service: what it is asked in JSON, what it answers as text, and replays,
//! by the public functions of their crates. The library itself is empty.
#![tactic(auto)]

#[cfg(test)]
mod answer_texts;
#[cfg(test)]
mod asking;
#[cfg(test)]
mod checks;
#[cfg(test)]
mod failing_replays;
#[cfg(test)]
mod inputs;
#[cfg(test)]
mod json_layouts;
#[cfg(test)]
mod json_requests;
#[cfg(test)]
mod kept_readers;
#[cfg(test)]
mod replayed_reads;
#[cfg(test)]
mod replays;
#[cfg(test)]
mod report_mistakes;
#[cfg(test)]
mod service_logs;
