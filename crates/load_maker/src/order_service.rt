/// The text of the order service: a shop, its stock and its bank.
pub(crate) const ORDER_SERVICE: &str = "\
type Order: void { id: string sku: string n: int price: int }
type Item: void { sku: string n: int }
type Pay: void { id: string amount: int }
interface ShopI { RequestResponse: order(Order)(string) }
interface StockI { RequestResponse: reserve(Item)(int) throws Short, release(Item)(int) }
interface BankI { RequestResponse: pay(Pay)(void) throws NoFunds }
service Shop {
  execution: concurrent
  inputPort In { location: \"socket://localhost:8000\" protocol: jsonrpc interfaces: ShopI }
  outputPort Stock { location: \"local://stock\" interfaces: StockI }
  outputPort Bank { location: \"local://bank\" interfaces: BankI }
  main { order(o)(y) { scope(all) {
    install(Short => y = \"short\", NoFunds => comp(stock) ; y = \"nofunds\") ;
    scope(stock) { reserve@Stock({ sku = o.sku, n = o.n })(left)
      [ this => release@Stock({ sku = o.sku, n = o.n })(left) ] } ;
    pay@Bank({ id = o.id, amount = o.n * o.price })() ;
    y = \"ok \" + left } } }
}
service StockS {
  execution: single
  inputPort In { location: \"local://stock\" interfaces: StockI }
  init { left = 10 }
  main { while (true) { scope(turn) {
    install(Short => nullProcess) ;
    [ reserve(i)(r) { if (i.n > left) { throw(Short) } ; left = left - i.n ; r = left } ] { nullProcess }
    [ release(i)(r) { left = left + i.n ; r = left } ] { nullProcess } } } }
}
service BankS {
  execution: concurrent
  inputPort In { location: \"local://bank\" interfaces: BankI }
  main { pay(p)() { if (p.amount > 100) { throw(NoFunds) } } }
}
";
