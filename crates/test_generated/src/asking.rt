//! Hosts that keep no rule, and what a device answers to them.
use crate::example::Example;
use crate::numbers::Numbers;
use crate::tally::Tally;
use anyhow::Result;
use usb_device::Device;
use usb_fields::{Answer, Stage, Toggle, Transaction};

/// How many hosts there are.
const HOSTS: u32 = 20_000;

/// How many bytes a setup packet has (USB 2.0, 9.3).
const SETUP: usize = 8;

/// SET_ADDRESS 5 and SET_CONFIGURATION 1 (USB 2.0, 9.4.6 and 9.4.7).
const ADDRESS: [u8; SETUP] = [0, 5, 5, 0, 0, 0, 0, 0];

const CONFIGURATION: [u8; SETUP] = [0, 9, 1, 0, 0, 0, 0, 0];

/// Hosts that ask the device of the example, each in up to 64 steps. What more the example has are setup packets.
pub(crate) fn asked(example: &Example, tally: &mut Tally) -> Result<()> {
    let packets = hex::decode(example.alloc, example.more.as_str())?;
    let description = example.description()?;
    let mut numbers = Numbers(example.number);
    for _ in 0..HOSTS {
        let mut asker = Asker {
            device: Device::new(&description),
            address: 0,
        };
        asker.go_on(&packets, &mut numbers, tally)?;
        tally.begin(asker.line(tally)?.as_str())?;
    }
    Ok(())
}

/// A host that keeps no rule, and its device.
#[derive(Drop)]
struct Asker<'d> {
    device: Device<'d>,
    /// The address to which it sends.
    address: u8,
}

impl Asker<'_> {
    /// Gives the device an address, and a configuration, or not, and then does anything up to 64 times.
    fn go_on(&mut self, packets: &[u8], numbers: &mut Numbers, tally: &mut Tally) -> Result<()> {
        let (steps, state) = (numbers.below(64), numbers.below(4));
        if state > 0 {
            self.ask(ADDRESS, tally)?;
            self.address = self.device.state().address;
        }
        if state > 1 {
            self.ask(CONFIGURATION, tally)?;
        }
        for _ in 0..=steps {
            self.step(packets, numbers, tally)?;
        }
        Ok(())
    }

    /// Makes a request that has no data.
    fn ask(&mut self, packet: [u8; SETUP], tally: &mut Tally) -> Result<()> {
        self.exchange(Stage::Setup(packet), true, tally)?;
        self.exchange(Stage::In, true, tally)?;
        self.device.acked();
        Ok(())
    }

    /// Does anything: sends a setup packet, an IN or an OUT, acknowledges, makes a request, resets the bus, or turns to
    /// any address or to that of the device.
    fn step(&mut self, packets: &[u8], numbers: &mut Numbers, tally: &mut Tally) -> Result<()> {
        match numbers.below(16) {
            0..=2 => self.send(Stage::Setup(packet(packets, numbers)), numbers, tally)?,
            3..=8 => self.send(Stage::In, numbers, tally)?,
            9 => {
                let toggle = [Toggle::Data0, Toggle::Data1][numbers.below(2)];
                let bytes: &[u8] = if numbers.below(4) == 0 { &[0] } else { &[] };
                self.send(Stage::Out(toggle, bytes), numbers, tally)?;
            }
            10..=12 => self.device.acked(),
            13 => self.ask(packet(packets, numbers), tally)?,
            _ => match numbers.below(16) {
                0 => {
                    self.device.reset();
                    self.address = 0;
                }
                1 => self.address = numbers.below(128) as u8,
                _ => self.address = self.device.state().address,
            },
        }
        Ok(())
    }

    /// Sends a transaction to the device, which once in eight times isn't ready.
    fn send(&mut self, stage: Stage<'_>, numbers: &mut Numbers, tally: &mut Tally) -> Result<()> {
        let ready = numbers.below(8) > 0;
        self.exchange(stage, ready, tally)
    }

    /// Sends a transaction, and adds a line with the answer.
    fn exchange(&mut self, stage: Stage<'_>, ready: bool, tally: &mut Tally) -> Result<()> {
        let transaction = Transaction {
            address: self.address,
            stage,
        };
        match self.device.serve(&transaction, ready) {
            Answer::Ack => tally.add_packet("ack", &[]),
            Answer::Nak => tally.add_packet("nak", &[]),
            Answer::Stall => tally.add_packet("stall", &[]),
            Answer::Silence => tally.add_packet("silence", &[]),
            Answer::Data(Toggle::Data0, bytes) => tally.add_packet("data0", bytes),
            Answer::Data(Toggle::Data1, bytes) => tally.add_packet("data1", bytes),
        }
    }

    /// The line of the state in which the device is left.
    fn line(&self, tally: &Tally) -> Result<String> {
        let state = self.device.state();
        let (address, selected, halts) = (state.address, state.selected, state.halts);
        let wakeup = u8::from(state.wakeup);
        let alternates = hex::encode(tally.alloc, state.alternates.get(..4).unwrap_or(&[]))?;
        Ok(format!(in tally.alloc;
            "address {address} selected {selected} wakeup {wakeup} halts {halts} alternates {alternates}\n"
        )?)
    }
}

/// One of the setup packets, of which once in four times a byte is another.
fn packet(packets: &[u8], numbers: &mut Numbers) -> [u8; SETUP] {
    let mut packet = [0; SETUP];
    let number = numbers.below((packets.len() / SETUP).max(1));
    let chosen = packets.chunks(SETUP).nth(number).unwrap_or(&[]);
    for (to, from) in packet.iter_mut().zip(chosen) {
        *to = *from;
    }
    if numbers.below(4) == 0 {
        let (place, value) = (numbers.below(SETUP), numbers.below(256));
        packet[place] = value as u8;
    }
    packet
}
