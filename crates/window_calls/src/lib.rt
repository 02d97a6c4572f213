// The two calls of the window: a price taken, and asking. Each reads the window whole, as a list of its prices; a price is taken into that list, the
// list is written again, and the summary is worked out from it anew.
// Assumes nothing.
#![tactic(auto)]

ghost use Rattle.std.specs.Prelude.{◌≡◌, ◌≤◌, ◌<◌, ◌^◌, length};
ghost use Rattle.std.specs.List.{sum};
ghost use Rattle.window.specs.Calls.{ask_call, take_call, window_with};
ghost use Rattle.window.specs.Claims.{AskPromise, TakePromise, ask_back, take_back};
ghost use Rattle.window.specs.Prices.{highest_price, lowest_price, most_prices, price_in_range, summary_of, with_price};
ghost use Rattle.window.specs.Refusals.{number_of};
ghost use Rattle.window_calls.specs.Reading.{held_prices, prices_of};
ghost use Rattle.window_calls.specs.WriteLaws.{RoomFor};

use arrayvec::ArrayVec;
use store::spans;
use window::{PRICE_LIMIT, PRICE_SIZE, PRICES, Refusal, SIZE, SUMMARY_SIZE, number_of};

// room for the prices held, and for the one that comes
const ROOM: usize = PRICES + 1;

type Prices = ArrayVec<u64, ROOM>;

// whether a price is 1 to 999,999
fn price_in_range(price: u64) -> bool
    ensures { result ≡ price_in_range price }
{
    (1..=PRICE_LIMIT).contains(&price)
}

// the prices in a window; None where it is too small or against the rules
fn read_prices(window: &[u8]) -> Option<Prices>
    ensures { prices_of result ≡ held_prices window.now }
{
    if window.len() < SIZE {
        return None;
    }
    let mut prices = ArrayVec::new();
    for k in 0..PRICES {
        let price = spans::number8(window, PRICE_SIZE * k);
        if price == 0 {
            return spans::are_zero(&window[PRICE_SIZE * k..SIZE]).then_some(prices);
        }
        if !price_in_range(price) {
            return None;
        }
        prices.push(price);
    }
    Some(prices)
}

// takes a price behind the others; of 33 the first leaves
fn take_price(prices: &mut Prices, price: u64)
    requires { length prices.old.items ≤ most_prices }
    ensures { prices.new.items ≡ with_price prices.old.items price }
{
    prices.push(price);
    if prices.len() > PRICES {
        prices.remove(0);
    }
}

// writes prices over a window's first bytes, and zeros behind them
fn write_prices(window: &mut [u8], prices: &Prices)
    requires { RoomFor window.old prices.now.items }
    ensures { window.new ≡ window_with window.old prices.now.items }
{
    let mut at = 0;
    for price in prices.as_slice() {
        spans::write(window, at, &price.to_le_bytes());
        at += PRICE_SIZE;
    }
    spans::blank(window, at, SIZE);
}

// the lowest of prices, 0 of none
fn lowest_price(prices: &[u64]) -> u64
    ensures { result ≡ lowest_price prices.now }
{
    prices.iter().copied().min().unwrap_or(0)
}

// the highest of prices, 0 of none
fn highest_price(prices: &[u64]) -> u64
    ensures { result ≡ highest_price prices.now }
{
    prices.iter().copied().max().unwrap_or(0)
}

// the sum of prices
fn sum_of(prices: &[u64]) -> u64
    requires { sum prices.now < 2 ^ 64 }
    ensures { result ≡ sum prices.now }
{
    prices.iter().sum()
}

// count, lowest, highest and sum of prices, each worked out anew
fn summary_of(prices: &[u64]) -> [u64; SUMMARY_SIZE]
    requires { sum prices.now < 2 ^ 64 }
    ensures { result ≡ summary_of prices.now }
{
    [
        prices.len() as u64,
        lowest_price(prices),
        highest_price(prices),
        sum_of(prices),
    ]
}

// a price taken into a window, with the summary of the prices that it holds then
fn take(window: &mut [u8], price: u64, summary: &mut [u64; SUMMARY_SIZE]) -> Result<(), Refusal>
    ensures { take_back (number_of result) summary.new window.new ≡ take_call window.old price }
{
    *summary = [0; SUMMARY_SIZE];
    let mut prices = read_prices(window).ok_or(Refusal::BadWindow)?;
    if !price_in_range(price) {
        return Err(Refusal::BadPrice);
    }
    take_price(&mut prices, price);
    write_prices(window, &prices);
    *summary = summary_of(prices.as_slice());
    Ok(())
}

// Takes a price into the window.
pub fn strigol_window_take(window: &mut [u8], price: u64, summary: &mut [u64; SUMMARY_SIZE]) -> u32
    ensures { TakePromise window.old price (take_back result summary.new window.new) }
{
    number_of(take(window, price, summary))
}

// the summary of the prices in a window
fn ask(window: &[u8], summary: &mut [u64; SUMMARY_SIZE]) -> Result<(), Refusal>
    ensures { ask_back (number_of result) summary.new ≡ ask_call window.now }
{
    *summary = [0; SUMMARY_SIZE];
    let held = read_prices(window).ok_or(Refusal::BadWindow)?;
    *summary = summary_of(held.as_slice());
    Ok(())
}

// Asks for the summary of the prices in the window.
pub fn strigol_window_ask(window: &[u8], summary: &mut [u64; SUMMARY_SIZE]) -> u32
    ensures { AskPromise window.now (ask_back result summary.new) }
{
    number_of(ask(window, summary))
}
