//! Tests of messages as bytes, of media and routes, and of the ends and conversations that send and take them.
#![tactic(auto)]

#[cfg(test)]
mod conversations;
#[cfg(test)]
mod headers;
#[cfg(test)]
mod il_ends;
#[cfg(test)]
mod il_messages;
#[cfg(test)]
mod media;
#[cfg(test)]
mod ninep_messages;
#[cfg(test)]
mod queues;
#[cfg(test)]
mod routing;
#[cfg(test)]
mod spelling;
#[cfg(test)]
mod streams;
#[cfg(test)]
mod udp_ends;
