// Row devices: the interface behind which every chip stands, a device that is lent, and calls played on any device.
#![tactic(auto)]

pub mod call;
pub mod checks;
pub mod device;
pub mod exchange;
pub mod lent_device;
pub mod new_device;
pub mod replay;
mod theorems;
