//! Reads `model.txt` and `order.txt` in the folder where it is started, and tells the process or why a text is refused.
#![tactic(auto)]

ghost use Rattle.console.specs.Loading.{ModelLoaded, OrderLoaded, Loaded};

mod files;

use fault::console::ConsoleFault;
use files::read_text;
use model::model::Model;
use reading::model_text::read_model;
use service::order_file::OrderFile;
use std::io;

// What the console works on.
#[derive(Drop)]
struct Input {
    model: Model,
    order: OrderFile,
}

// The model that a text describes, or why it is refused.
fn load_model(text: &[u8]) -> Result<Model, ConsoleFault>
    ensures { ModelLoaded text.now result }
{
    let mut model = Model::new();
    read_model(&mut model, text)?;
    Ok(model)
}

// The answers of an order text, or why it is refused.
fn load_order(text: &[u8]) -> Result<OrderFile, ConsoleFault>
    ensures { OrderLoaded text.now result }
{
    let order = OrderFile::over(text);
    match order.fault() {
        Some(fault) => Err(ConsoleFault::from(fault)),
        None => Ok(order),
    }
}

// Both, or why one of them is refused: the model comes first.
fn load(model_text: &[u8], order_text: &[u8]) -> Result<Input, ConsoleFault>
    ensures { Loaded model_text.now order_text.now result }
{
    let model = load_model(model_text)?;
    let order = load_order(order_text)?;
    Ok(Input { model, order })
}

fn main(rt: HostRuntime) -> io::Result<()> {
    let model_text = read_text(&rt, "model.txt")?;
    let order_text = read_text(&rt, "order.txt")?;
    match load(model_text.as_slice(), order_text.as_slice()) {
        Ok(input) => println!(rt; "process {}", input.model.number()),
        Err(fault) => {
            let record = fault.record();
            println!(rt;
                "refused {} layer {} place {}",
                record.number, record.layer, record.place
            )
        }
    }
}
